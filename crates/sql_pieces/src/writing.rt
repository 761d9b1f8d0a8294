//! Writing a statement as the pieces of its text, for any sink of pieces.
ghost use Rattle.std.specs.Prelude.{◌≡◌, ◌≤◌, ◌+◌, min, [], ◌∷◌, ◌++◌, map, length, decimal};
ghost use Rattle.std.specs.List.{flat_map};
ghost use Rattle.iv_types.specs.Syntax.{create_table, create_index, create_view, insert, update, delete, begin, rollback, savepoint};
ghost use Rattle.iv_types.specs.Trees.{tree, trees, perhaps_tree, query_tree, set_tree, statement_tree, item_tree, join_tree};
ghost use Rattle.iv_types.specs.Printing as printing;
ghost use Rattle.sql_pieces.specs.Sinks.{Wrote, number_piece, is_tight, is_close, gap_size};

use iv_types::{
    Bytes, ColumnDef, ColumnList, Expr, ExprList, Item, Join, Kind, LONGEST_DEFINITION, Mode,
    NameList, NoMemory, Op, Order, OrderKey, OrderList, Query, Ref, RefList, Relation, Set,
    SetList, Statement, Terminal, TupleList,
};

/// What takes the pieces of a text, in order, and puts the spaces between them.
pub trait PieceSink {
    ghost use Rattle.std.specs.Prelude.{Bool};
    ghost use Rattle.iv_types.specs.Printing.{Written};

    // The text that was written so far is this.
    ghost holds: { Self → Written → Type 0 };

    ghost takes_memory: { Bool };

    /// A keyword or a mark.
    fn fixed(&mut self, terminal: Terminal) -> Result<(), NoMemory>
        ensures { Wrote holds takes_memory self.old result self.new (printing.fixed terminal ∷ []) };

    /// A name.
    fn name(&mut self, name: &[u8]) -> Result<(), NoMemory>
        ensures { Wrote holds takes_memory self.old result self.new (printing.name name.now ∷ []) };

    /// A number literal with its sign.
    fn number(&mut self, number: i128) -> Result<(), NoMemory>
        ensures { Wrote holds takes_memory self.old result self.new (number_piece number ∷ []) };

    /// A text literal of this content.
    fn text(&mut self, content: &[u8]) -> Result<(), NoMemory>
        ensures { Wrote holds takes_memory self.old result self.new (printing.text content.now ∷ []) };
}

/// A part of a statement, which stands in lists.
trait Part {
    ghost use Rattle.std.specs.Prelude.{List};
    ghost use Rattle.iv_types.specs.Printing.{Piece};

    ghost pieces: { Self → List Piece };

    fn write<W: PieceSink>(&self, sink: &mut W) -> Result<(), NoMemory>
        ensures { Wrote W.holds W.takes_memory sink.old result sink.new (pieces self.now) };
}

// Parts with commas between them.
fn write_listed<T: Part, W: PieceSink>(sink: &mut W, parts: &[T]) -> Result<(), NoMemory>
    ensures { Wrote W.holds W.takes_memory sink.old result sink.new (printing.with_commas T.pieces parts.now) }
{
    for (i, part) in parts.iter().enumerate() {
        if i > 0 {
            sink.fixed(Terminal::Comma)?;
        }
        part.write(sink)?;
    }
    Ok(())
}

// Parts with nothing between them.
fn write_each<T: Part, W: PieceSink>(sink: &mut W, parts: &[T]) -> Result<(), NoMemory>
    ensures { Wrote W.holds W.takes_memory sink.old result sink.new (flat_map T.pieces parts.now) }
{
    for part in parts {
        part.write(sink)?;
    }
    Ok(())
}

impl Part for Bytes {
    ghost pieces = { printing.name_pieces };

    fn write<W: PieceSink>(&self, sink: &mut W) -> Result<(), NoMemory> {
        sink.name(self.as_slice())
    }
}

fn write_names<W: PieceSink>(sink: &mut W, names: &NameList) -> Result<(), NoMemory>
    ensures { Wrote W.holds W.takes_memory sink.old result sink.new (printing.names_pieces names.now) }
{
    sink.fixed(Terminal::Open)?;
    write_listed(sink, names.as_slice())?;
    sink.fixed(Terminal::Close)
}

fn write_alias<W: PieceSink>(sink: &mut W, alias: &Option<Bytes>) -> Result<(), NoMemory>
    ensures { Wrote W.holds W.takes_memory sink.old result sink.new (printing.alias_pieces alias.now) }
{
    match alias {
        None => Ok(()),
        Some(name) => {
            sink.fixed(Terminal::As)?;
            sink.name(name.as_slice())
        }
    }
}

// ---- expressions

fn rank_of_operator(op: Op) -> u32
    ensures { result ≡ printing.operator_rank op }
{
    match op {
        Op::Or => 0,
        Op::And => 1,
        Op::Equal | Op::NotEqual | Op::Less | Op::AtMost | Op::Greater | Op::AtLeast => 3,
        Op::Add | Op::Subtract => 4,
        Op::Multiply => 5,
    }
}

fn place_on_the_left(op: Op) -> u32
    ensures { result ≡ printing.left_place op }
{
    match op {
        Op::Or => 0,
        Op::And => 1,
        Op::Equal | Op::NotEqual | Op::Less | Op::AtMost | Op::Greater | Op::AtLeast => 4,
        Op::Add | Op::Subtract => 4,
        Op::Multiply => 5,
    }
}

fn place_on_the_right(op: Op) -> u32
    ensures { result ≡ printing.right_place op }
{
    match op {
        Op::Or => 1,
        Op::And => 2,
        Op::Equal | Op::NotEqual | Op::Less | Op::AtMost | Op::Greater | Op::AtLeast => 4,
        Op::Add | Op::Subtract => 5,
        Op::Multiply => 6,
    }
}

fn mark_of_operator(op: Op) -> Terminal
    ensures { result ≡ printing.operator_mark op }
{
    match op {
        Op::Or => Terminal::Or,
        Op::And => Terminal::And,
        Op::Equal => Terminal::Equal,
        Op::NotEqual => Terminal::NotEqual,
        Op::Less => Terminal::Less,
        Op::AtMost => Terminal::AtMost,
        Op::Greater => Terminal::Greater,
        Op::AtLeast => Terminal::AtLeast,
        Op::Add => Terminal::Plus,
        Op::Subtract => Terminal::Minus,
        Op::Multiply => Terminal::Star,
    }
}

// The tightest place at which an expression stands without parentheses. The places are those of the grammar's rules:
// 0 an expression, 1 an operand of OR, 2 one of AND or NOT, 3 a comparison, 4 its operand, 5 one of + and -, 6 one
// of *, 7 what stands behind a minus.
fn rank_of(expression: &Expr) -> u32
    ensures { result ≡ printing.rank (tree expression.now) }
{
    match expression {
        Expr::Number(number) => { if *number < 0 { 7 } else { 6 } }
        Expr::Word(_) => 7,
        Expr::Named(_) => 7,
        Expr::At(_) => 7,
        Expr::Minus(_) => 7,
        Expr::Not(_) => 2,
        Expr::Pair(op, _, _) => rank_of_operator(*op),
    }
}

// An expression without parentheses around it.
#[cycle(expressions)]
#[tactic(auto, unfolding(iv_types::specs::Printing::bare_pieces))]
fn write_bare<W: PieceSink>(sink: &mut W, expression: &Expr) -> Result<(), NoMemory>
    ensures { Wrote W.holds W.takes_memory sink.old result sink.new (printing.bare_pieces (tree expression.now)) }
{
    match expression {
        Expr::Number(number) => sink.number(*number),
        Expr::Word(content) => sink.text(content.as_slice()),
        Expr::Named(reference) => reference.write(sink),
        Expr::At(_) => Ok(()),
        Expr::Minus(operand) => {
            sink.fixed(Terminal::Minus)?;
            write_at(sink, 7, operand)
        }
        Expr::Not(operand) => {
            sink.fixed(Terminal::Not)?;
            write_at(sink, 2, operand)
        }
        Expr::Pair(op, left, right) => {
            write_at(sink, place_on_the_left(*op), left)?;
            sink.fixed(mark_of_operator(*op))?;
            write_at(sink, place_on_the_right(*op), right)
        }
    }
}

// An expression at a place of the grammar, in parentheses where it needs them there.
#[cycle(expressions)]
#[tactic(auto, unfolding(iv_types::specs::Printing::bare_pieces))]
fn write_at<W: PieceSink>(sink: &mut W, place: u32, expression: &Expr) -> Result<(), NoMemory>
    ensures { Wrote W.holds W.takes_memory sink.old result sink.new (printing.tree_pieces place (tree expression.now)) }
{
    if place <= rank_of(expression) {
        return write_bare(sink, expression);
    }
    sink.fixed(Terminal::Open)?;
    write_bare(sink, expression)?;
    sink.fixed(Terminal::Close)
}

impl Part for Ref {
    ghost pieces = { printing.ref_pieces };

    fn write<W: PieceSink>(&self, sink: &mut W) -> Result<(), NoMemory> {
        if let Some(qualifier) = &self.qualifier {
            sink.name(qualifier.as_slice())?;
            sink.fixed(Terminal::Point)?;
            return sink.name(self.name.as_slice());
        }
        sink.name(self.name.as_slice())
    }
}

impl Part for Expr {
    ghost pieces = { λ e. printing.tree_pieces 0 (tree e) };

    fn write<W: PieceSink>(&self, sink: &mut W) -> Result<(), NoMemory> {
        write_at(sink, 0, self)
    }
}

// ---- queries

impl Part for Item {
    ghost pieces = { λ i. printing.item_pieces (item_tree i) };

    fn write<W: PieceSink>(&self, sink: &mut W) -> Result<(), NoMemory> {
        match self {
            Item::All => sink.fixed(Terminal::Star),
            Item::Count(alias) => {
                sink.fixed(Terminal::Count)?;
                sink.fixed(Terminal::Open)?;
                sink.fixed(Terminal::Star)?;
                sink.fixed(Terminal::Close)?;
                write_alias(sink, alias)
            }
            Item::Sum(column, alias) => {
                sink.fixed(Terminal::Sum)?;
                sink.fixed(Terminal::Open)?;
                column.write(sink)?;
                sink.fixed(Terminal::Close)?;
                write_alias(sink, alias)
            }
            Item::Plain(expression, alias) => {
                write_at(sink, 0, expression)?;
                write_alias(sink, alias)
            }
        }
    }
}

fn write_relation<W: PieceSink>(sink: &mut W, relation: &Relation) -> Result<(), NoMemory>
    ensures { Wrote W.holds W.takes_memory sink.old result sink.new (printing.relation_pieces relation.now) }
{
    sink.name(relation.name.as_slice())?;
    write_alias(sink, &relation.alias)
}

impl Part for Join {
    ghost pieces = { λ j. printing.join_pieces (join_tree j) };

    fn write<W: PieceSink>(&self, sink: &mut W) -> Result<(), NoMemory> {
        sink.fixed(Terminal::Join)?;
        write_relation(sink, &self.relation)?;
        sink.fixed(Terminal::On)?;
        write_at(sink, 0, &self.on)
    }
}

fn write_condition<W: PieceSink>(sink: &mut W, condition: &Option<Expr>) -> Result<(), NoMemory>
    ensures { Wrote W.holds W.takes_memory sink.old result sink.new (printing.condition_pieces (perhaps_tree condition.now)) }
{
    match condition {
        None => Ok(()),
        Some(expression) => {
            sink.fixed(Terminal::Where)?;
            write_at(sink, 0, expression)
        }
    }
}

fn write_group<W: PieceSink>(sink: &mut W, group: &RefList) -> Result<(), NoMemory>
    ensures { Wrote W.holds W.takes_memory sink.old result sink.new (printing.group_pieces group.now) }
{
    let columns = group.as_slice();
    if columns.is_empty() {
        return Ok(());
    }
    sink.fixed(Terminal::Group)?;
    sink.fixed(Terminal::By)?;
    write_listed(sink, columns)
}

fn write_query<W: PieceSink>(sink: &mut W, query: &Query) -> Result<(), NoMemory>
    ensures { Wrote W.holds W.takes_memory sink.old result sink.new (printing.query_pieces (query_tree query.now)) }
{
    sink.fixed(Terminal::Select)?;
    write_listed(sink, query.items.as_slice())?;
    sink.fixed(Terminal::From)?;
    write_relation(sink, &query.first)?;
    write_each(sink, query.joins.as_slice())?;
    write_condition(sink, &query.condition)?;
    write_group(sink, &query.group)
}

impl Part for Order {
    ghost pieces = { printing.order_pieces };

    fn write<W: PieceSink>(&self, sink: &mut W) -> Result<(), NoMemory> {
        write_key(sink, &self.by)?;
        if self.descending {
            return sink.fixed(Terminal::Desc);
        }
        Ok(())
    }
}

fn write_key<W: PieceSink>(sink: &mut W, key: &OrderKey) -> Result<(), NoMemory>
    ensures { Wrote W.holds W.takes_memory sink.old result sink.new (printing.key_pieces key.now) }
{
    match key {
        OrderKey::Place(number) => sink.number(*number),
        OrderKey::Name(name) => sink.name(name.as_slice()),
    }
}

fn write_order<W: PieceSink>(sink: &mut W, order: &OrderList) -> Result<(), NoMemory>
    ensures { Wrote W.holds W.takes_memory sink.old result sink.new (printing.orders_pieces order.now) }
{
    let terms = order.as_slice();
    if terms.is_empty() {
        return Ok(());
    }
    sink.fixed(Terminal::Order)?;
    sink.fixed(Terminal::By)?;
    write_listed(sink, terms)
}

fn write_selection<W: PieceSink>(
    sink: &mut W,
    query: &Query,
    order: &OrderList,
) -> Result<(), NoMemory>
    ensures { Wrote W.holds W.takes_memory sink.old result sink.new (printing.query_pieces (query_tree query.now) ++ printing.orders_pieces order.now) }
{
    write_query(sink, query)?;
    write_order(sink, order)
}

// ---- CREATE

fn mark_of_kind(kind: Kind) -> Terminal
    ensures { result ≡ printing.kind_mark kind }
{
    match kind {
        Kind::Int => Terminal::Int,
        Kind::Huge => Terminal::Huge,
        Kind::Text => Terminal::Text,
    }
}

impl Part for ColumnDef {
    ghost pieces = { printing.column_pieces };

    fn write<W: PieceSink>(&self, sink: &mut W) -> Result<(), NoMemory> {
        sink.name(self.name.as_slice())?;
        sink.fixed(mark_of_kind(self.kind))?;
        sink.fixed(Terminal::Comma)
    }
}

fn write_table<W: PieceSink>(
    sink: &mut W,
    name: &Bytes,
    columns: &ColumnList,
    primary: &NameList,
) -> Result<(), NoMemory>
    ensures { Wrote W.holds W.takes_memory sink.old result sink.new (printing.statement_pieces (create_table name.now columns.now primary.now)) }
{
    sink.fixed(Terminal::Create)?;
    sink.fixed(Terminal::Table)?;
    sink.name(name.as_slice())?;
    sink.fixed(Terminal::Open)?;
    write_each(sink, columns.as_slice())?;
    sink.fixed(Terminal::Primary)?;
    sink.fixed(Terminal::Key)?;
    write_names(sink, primary)?;
    sink.fixed(Terminal::Close)
}

fn write_index<W: PieceSink>(
    sink: &mut W,
    name: &Bytes,
    table: &Bytes,
    columns: &NameList,
) -> Result<(), NoMemory>
    ensures { Wrote W.holds W.takes_memory sink.old result sink.new (printing.statement_pieces (create_index name.now table.now columns.now)) }
{
    sink.fixed(Terminal::Create)?;
    sink.fixed(Terminal::Index)?;
    sink.name(name.as_slice())?;
    sink.fixed(Terminal::On)?;
    sink.name(table.as_slice())?;
    write_names(sink, columns)
}

fn write_view<W: PieceSink>(sink: &mut W, name: &Bytes, query: &Query) -> Result<(), NoMemory>
    ensures { Wrote W.holds W.takes_memory sink.old result sink.new (printing.statement_pieces (create_view name.now (query_tree query.now))) }
{
    sink.fixed(Terminal::Create)?;
    sink.fixed(Terminal::Indexed)?;
    sink.fixed(Terminal::View)?;
    sink.name(name.as_slice())?;
    sink.fixed(Terminal::As)?;
    write_query(sink, query)
}

// ---- rows

impl Part for ExprList {
    ghost pieces = { λ es. printing.tuple_pieces (trees es) };

    fn write<W: PieceSink>(&self, sink: &mut W) -> Result<(), NoMemory> {
        sink.fixed(Terminal::Open)?;
        write_listed(sink, self.as_slice())?;
        sink.fixed(Terminal::Close)
    }
}

fn write_insertion<W: PieceSink>(
    sink: &mut W,
    table: &Bytes,
    tuples: &TupleList,
) -> Result<(), NoMemory>
    ensures { Wrote W.holds W.takes_memory sink.old result sink.new (printing.statement_pieces (insert table.now (map trees tuples.now))) }
{
    sink.fixed(Terminal::Insert)?;
    sink.fixed(Terminal::Into)?;
    sink.name(table.as_slice())?;
    sink.fixed(Terminal::Values)?;
    write_listed(sink, tuples.as_slice())
}

impl Part for Set {
    ghost pieces = { λ s. printing.set_pieces (set_tree s) };

    fn write<W: PieceSink>(&self, sink: &mut W) -> Result<(), NoMemory> {
        sink.name(self.name.as_slice())?;
        sink.fixed(Terminal::Equal)?;
        write_at(sink, 0, &self.value)
    }
}

fn write_update<W: PieceSink>(
    sink: &mut W,
    table: &Bytes,
    sets: &SetList,
    condition: &Option<Expr>,
) -> Result<(), NoMemory>
    ensures { Wrote W.holds W.takes_memory sink.old result sink.new (printing.statement_pieces (update table.now (map set_tree sets.now) (perhaps_tree condition.now))) }
{
    sink.fixed(Terminal::Update)?;
    sink.name(table.as_slice())?;
    sink.fixed(Terminal::Set)?;
    write_listed(sink, sets.as_slice())?;
    write_condition(sink, condition)
}

fn write_deletion<W: PieceSink>(
    sink: &mut W,
    table: &Bytes,
    condition: &Option<Expr>,
) -> Result<(), NoMemory>
    ensures { Wrote W.holds W.takes_memory sink.old result sink.new (printing.statement_pieces (delete table.now (perhaps_tree condition.now))) }
{
    sink.fixed(Terminal::Delete)?;
    sink.fixed(Terminal::From)?;
    sink.name(table.as_slice())?;
    write_condition(sink, condition)
}

// ---- transactions

fn write_begin<W: PieceSink>(sink: &mut W, mode: Mode) -> Result<(), NoMemory>
    ensures { Wrote W.holds W.takes_memory sink.old result sink.new (printing.statement_pieces (begin mode)) }
{
    sink.fixed(Terminal::Begin)?;
    match mode {
        Mode::Serial => Ok(()),
        Mode::Snapshot => sink.fixed(Terminal::Snapshot),
    }
}

fn write_rollback<W: PieceSink>(sink: &mut W, to: &Option<Bytes>) -> Result<(), NoMemory>
    ensures { Wrote W.holds W.takes_memory sink.old result sink.new (printing.statement_pieces (rollback to.now)) }
{
    sink.fixed(Terminal::Rollback)?;
    match to {
        None => Ok(()),
        Some(name) => {
            sink.fixed(Terminal::To)?;
            sink.name(name.as_slice())
        }
    }
}

fn write_savepoint<W: PieceSink>(sink: &mut W, name: &Bytes) -> Result<(), NoMemory>
    ensures { Wrote W.holds W.takes_memory sink.old result sink.new (printing.statement_pieces (savepoint name.now)) }
{
    sink.fixed(Terminal::Savepoint)?;
    sink.name(name.as_slice())
}

/// Writes the pieces of a statement's one text, in order.
pub fn write_statement<W: PieceSink>(sink: &mut W, statement: &Statement) -> Result<(), NoMemory>
    ensures { Wrote W.holds W.takes_memory sink.old result sink.new (printing.statement_pieces (statement_tree statement.now)) }
{
    match statement {
        Statement::CreateTable {
            name,
            columns,
            primary,
        } => write_table(sink, name, columns, primary),
        Statement::CreateIndex {
            name,
            table,
            columns,
        } => write_index(sink, name, table, columns),
        Statement::CreateView { name, query } => write_view(sink, name, query),
        Statement::Insert { table, tuples } => write_insertion(sink, table, tuples),
        Statement::Update {
            table,
            sets,
            condition,
        } => write_update(sink, table, sets, condition),
        Statement::Delete { table, condition } => write_deletion(sink, table, condition),
        Statement::Select { query, order } => write_selection(sink, query, order),
        Statement::Begin(mode) => write_begin(sink, *mode),
        Statement::Commit => sink.fixed(Terminal::Commit),
        Statement::Rollback { to } => write_rollback(sink, to),
        Statement::Savepoint { name } => write_savepoint(sink, name),
    }
}

// ---- counting

/// Whether this terminal stands without a space behind what comes before it.
#[tactic(auto, unfolding(iv_types::specs::Terminals::same))]
pub fn stands_close(terminal: Terminal) -> bool
    ensures { result ≡ is_close (printing.fixed terminal) }
{
    matches!(
        terminal,
        Terminal::Close | Terminal::Comma | Terminal::Point
    )
}

/// Whether what comes behind this terminal stands without a space.
#[tactic(auto, unfolding(iv_types::specs::Terminals::same))]
pub fn leaves_tight(terminal: Terminal) -> bool
    ensures { result ≡ is_tight (Some (printing.fixed terminal)) }
{
    matches!(terminal, Terminal::Open | Terminal::Point)
}

// The most bytes that are counted of a statement's text, one past those of a definition.
const MOST_COUNTED: u64 = LONGEST_DEFINITION as u64 + 1;

// The sum, or the most that is counted.
fn add(count: u64, more: u64) -> u64
    ensures { result ≡ min printing.most_counted (count + more) }
{
    count.saturating_add(more).min(MOST_COUNTED)
}

fn digits_of(number: u128) -> u64
    ensures digits { result ≡ length (decimal number) }
    ensures few { result ≤ 40 }
{
    let mut left = number;
    let mut count = 1;
    while left >= 10 {
        left /= 10;
        count += 1;
    }
    count
}

// The bytes of a number with its sign.
fn number_size(number: i128) -> u64
    ensures { result ≡ length (printing.piece_text (number_piece number)) }
{
    let digits = digits_of(number.unsigned_abs());
    if number < 0 { digits + 1 } else { digits }
}

// The bytes of a text with its quotes, or the most that is counted.
fn quoted_size(content: &[u8]) -> u64
    ensures { result ≡ min printing.most_counted (length (printing.quoted_text content.now)) }
{
    let mut count = 2;
    for byte in content {
        let size = if *byte == b'\'' { 2 } else { 1 };
        count = add(count, size);
    }
    count
}

// A text of which only the size is known.
#[derive(Drop)]
struct Counting {
    bytes: u64,
    // Whether what comes next stands without a space.
    tight: bool,
}

impl Counting {
    fn piece(&mut self, close: bool, size: u64, tight: bool)
        ensures bytes { self.new.bytes ≡ min printing.most_counted (self.old.bytes + (gap_size self.old.tight close + size)) }
        ensures tight { self.new.tight ≡ tight }
    {
        if !self.tight && !close {
            self.bytes = add(self.bytes, 1);
        }
        self.bytes = add(self.bytes, size);
        self.tight = tight;
    }
}

impl PieceSink for Counting {
    ghost use Rattle.std.specs.Prelude.{false};
    ghost use Rattle.sql_pieces.specs.Sinks.{Counts};

    ghost holds = { λ c w. Counts c.bytes c.tight w };

    ghost takes_memory = { false };

    fn fixed(&mut self, terminal: Terminal) -> Result<(), NoMemory> {
        let size = terminal.spelling().len() as u64;
        self.piece(stands_close(terminal), size, leaves_tight(terminal));
        Ok(())
    }

    fn name(&mut self, name: &[u8]) -> Result<(), NoMemory> {
        self.piece(false, name.len() as u64, false);
        Ok(())
    }

    fn number(&mut self, number: i128) -> Result<(), NoMemory> {
        self.piece(false, number_size(number), false);
        Ok(())
    }

    fn text(&mut self, content: &[u8]) -> Result<(), NoMemory> {
        self.piece(false, quoted_size(content), false);
        Ok(())
    }
}

/// The size of the statement's one text in bytes. It takes no memory, and a size above 4,097 is counted as that.
pub fn statement_bytes(statement: &Statement) -> u64
    ensures { result ≡ printing.statement_size (statement_tree statement.now) }
{
    let mut counting = Counting {
        bytes: 0,
        tight: true,
    };
    let _ = write_statement(&mut counting, statement);
    counting.bytes
}
