//! Operators as they are written in statements.
use iv_types::Op;

/// How an operator is written.
pub fn sign(op: Op) -> &'static str {
    match op {
        Op::Or => "OR",
        Op::And => "AND",
        Op::Equal => "=",
        Op::NotEqual => "<>",
        Op::Less => "<",
        Op::AtMost => "<=",
        Op::Greater => ">",
        Op::AtLeast => ">=",
        Op::Add => "+",
        Op::Subtract => "-",
        Op::Multiply => "*",
    }
}

/// The operator that is written so.
pub fn operator(sign: &str) -> Option<Op> {
    match sign {
        "OR" => Some(Op::Or),
        "AND" => Some(Op::And),
        "=" => Some(Op::Equal),
        "<>" => Some(Op::NotEqual),
        "<" => Some(Op::Less),
        "<=" => Some(Op::AtMost),
        ">" => Some(Op::Greater),
        ">=" => Some(Op::AtLeast),
        "+" => Some(Op::Add),
        "-" => Some(Op::Subtract),
        "*" => Some(Op::Multiply),
        _ => None,
    }
}
