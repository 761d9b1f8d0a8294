//! What an expression gives, and the operations on that.
ghost use Rattle.std.specs.Prelude.{◌≡◌, neg_ℤ, ◌+ℤ◌, ◌-ℤ◌, ◌*ℤ◌, ℤ, Bool, Option, Some, None, IfSome, IfNone};
ghost use Rattle.std.specs.Ordering.{is_eq, is_lt, is_gt};
ghost use Rattle.std.specs.declared.cmp.Ordering.{Ordering};
ghost use Rattle.row_eval.specs.declared.outcome.Seen.TheVariants.{Refused};
ghost use Rattle.iv_meaning.specs.Values.{ranged, arithmetic, opposite, compared, both, either, negated, combined, holds, is_true, is_false, truth, refused};
ghost use Rattle.row_eval.specs.Seen.{outcome_of};

use iv_types::Op;
use std::cmp::Ordering;

/// What an expression gives. A text lies in the expression or in a row.
#[derive(Clone, Copy, Debug, Drop)]
pub enum Seen<'a> {
    Number(i128),
    Word(&'a [u8]),
    Truth(bool),
    /// Arithmetic leaves the HUGE range, or the expression is none of a bound statement.
    Refused,
}

impl Seen<'_> {
    fn is_true(self) -> bool
        ensures { result ≡ is_true (outcome_of self.entry) }
    {
        matches!(self, Seen::Truth(true))
    }

    fn is_false(self) -> bool
        ensures { result ≡ is_false (outcome_of self.entry) }
    {
        matches!(self, Seen::Truth(false))
    }
}

/// A number, if it lies in the HUGE range.
pub fn ranged<'a>(number: Option<i128>) -> Seen<'a>
    ensures some { (n : ℤ) → number ≡ Some n → outcome_of result ≡ ranged n }
    ensures none { number ≡ None → result ≡ Refused }
{
    match number {
        Some(number) if number != i128::MIN => Seen::Number(number),
        _ => Seen::Refused,
    }
}

fn sum<'a>(a: i128, b: i128) -> Seen<'a>
    ensures { outcome_of result ≡ ranged (a +ℤ b) }
{
    ranged(a.checked_add(b))
}

fn difference<'a>(a: i128, b: i128) -> Seen<'a>
    ensures { outcome_of result ≡ ranged (a -ℤ b) }
{
    ranged(a.checked_sub(b))
}

fn product<'a>(a: i128, b: i128) -> Seen<'a>
    ensures { outcome_of result ≡ ranged (a *ℤ b) }
{
    ranged(a.checked_mul(b))
}

// Two numbers, if both sides are such.
fn numbers(a: Seen<'_>, b: Seen<'_>) -> Option<(i128, i128)>
    ensures some { (f : ℤ → ℤ → ℤ) → IfSome result (λ x. arithmetic f (outcome_of a.entry) (outcome_of b.entry) ≡ ranged (f x.0 x.1)) }
    ensures none { (f : ℤ → ℤ → ℤ) → IfNone result (arithmetic f (outcome_of a.entry) (outcome_of b.entry) ≡ refused) }
{
    match (a, b) {
        (Seen::Number(a), Seen::Number(b)) => Some((a, b)),
        _ => None,
    }
}

fn add<'a>(a: Seen<'a>, b: Seen<'a>) -> Seen<'a>
    ensures { outcome_of result ≡ arithmetic (λ x y. x +ℤ y) (outcome_of a.entry) (outcome_of b.entry) }
{
    match numbers(a, b) {
        Some((a, b)) => sum(a, b),
        None => Seen::Refused,
    }
}

fn subtract<'a>(a: Seen<'a>, b: Seen<'a>) -> Seen<'a>
    ensures { outcome_of result ≡ arithmetic (λ x y. x -ℤ y) (outcome_of a.entry) (outcome_of b.entry) }
{
    match numbers(a, b) {
        Some((a, b)) => difference(a, b),
        None => Seen::Refused,
    }
}

fn multiply<'a>(a: Seen<'a>, b: Seen<'a>) -> Seen<'a>
    ensures { outcome_of result ≡ arithmetic (λ x y. x *ℤ y) (outcome_of a.entry) (outcome_of b.entry) }
{
    match numbers(a, b) {
        Some((a, b)) => product(a, b),
        None => Seen::Refused,
    }
}

/// The negative of a number.
pub fn opposite(a: Seen<'_>) -> Seen<'_>
    ensures { outcome_of result ≡ opposite (outcome_of a.entry) }
{
    match a {
        Seen::Number(number) => ranged(number.checked_neg()),
        _ => Seen::Refused,
    }
}

// How two numbers or two texts compare, if both sides are such.
fn order(a: Seen<'_>, b: Seen<'_>) -> Option<Ordering>
    ensures some { (test : Ordering → Bool) → IfSome result (λ o. compared test (outcome_of a.entry) (outcome_of b.entry) ≡ truth (test o)) }
    ensures none { (test : Ordering → Bool) → IfNone result (compared test (outcome_of a.entry) (outcome_of b.entry) ≡ refused) }
{
    match (a, b) {
        (Seen::Number(a), Seen::Number(b)) => Some(a.cmp(&b)),
        (Seen::Word(a), Seen::Word(b)) => Some(a.cmp(b)),
        _ => None,
    }
}

// What a comparison makes of an order.
fn holds(op: Op, order: Ordering) -> bool
    ensures { result ≡ holds op order }
{
    match op {
        Op::Equal => order.is_eq(),
        Op::NotEqual => order.is_ne(),
        Op::Less => order.is_lt(),
        Op::AtMost => order.is_le(),
        Op::Greater => order.is_gt(),
        Op::AtLeast => order.is_ge(),
        _ => false,
    }
}

// A comparison of two sides.
fn comparison<'a>(op: Op, a: Seen<'a>, b: Seen<'a>) -> Seen<'a>
    ensures { outcome_of result ≡ compared (holds op) (outcome_of a.entry) (outcome_of b.entry) }
{
    match order(a, b) {
        Some(order) => Seen::Truth(holds(op, order)),
        None => Seen::Refused,
    }
}

/// What an operator makes of its two sides.
pub fn combined<'a>(op: Op, a: Seen<'a>, b: Seen<'a>) -> Seen<'a>
    ensures { outcome_of result ≡ combined op (outcome_of a.entry) (outcome_of b.entry) }
{
    match op {
        Op::Or => either(a, b),
        Op::And => both(a, b),
        Op::Add => add(a, b),
        Op::Subtract => subtract(a, b),
        Op::Multiply => multiply(a, b),
        _ => comparison(op, a, b),
    }
}

/// AND: false where one side is, whatever the other gives, and true where both are.
pub fn both<'a>(a: Seen<'a>, b: Seen<'a>) -> Seen<'a>
    ensures { outcome_of result ≡ both (outcome_of a.entry) (outcome_of b.entry) }
{
    if a.is_false() || b.is_false() {
        return Seen::Truth(false);
    }
    if a.is_true() && b.is_true() {
        return Seen::Truth(true);
    }
    Seen::Refused
}

/// OR: true where one side is, whatever the other gives, and false where both are.
pub fn either<'a>(a: Seen<'a>, b: Seen<'a>) -> Seen<'a>
    ensures { outcome_of result ≡ either (outcome_of a.entry) (outcome_of b.entry) }
{
    if a.is_true() || b.is_true() {
        return Seen::Truth(true);
    }
    if a.is_false() && b.is_false() {
        return Seen::Truth(false);
    }
    Seen::Refused
}

/// NOT.
pub fn negated(a: Seen<'_>) -> Seen<'_>
    ensures { outcome_of result ≡ negated (outcome_of a.entry) }
{
    match a {
        Seen::Truth(a) => Seen::Truth(!a),
        _ => Seen::Refused,
    }
}
