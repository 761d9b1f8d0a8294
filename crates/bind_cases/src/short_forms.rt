//! SELECTs that no text can be bound to, by their relations' numbers and their conditions in postfix form.
use case_text::read_expression;
use iv_types::{
    Bound, BoundItemList, BoundOrderList, BoundSelect, ColumnAtList, ExprList, ObjectNumbers,
};
use std::alloc::Global;
use std::mem::forget;

// Conditions with semicolons between them.
fn push_conditions(alloc: Global, found: &mut ExprList, text: &str) -> anyhow::Result<()> {
    for part in text.split(" ; ") {
        found.push(read_expression(alloc, part)?)?;
    }
    Ok(())
}

fn push_numbers(found: &mut ObjectNumbers, text: &str) -> anyhow::Result<()> {
    for token in text.split(' ') {
        found.push(token.parse::<u32>()?)?;
    }
    Ok(())
}

/// A SELECT of the relations of these numbers, with conditions between semicolons, and no items.
pub fn selection(alloc: Global, relations: &str, conditions: &str) -> anyhow::Result<Bound> {
    let mut numbers = ObjectNumbers::new(alloc);
    push_numbers(&mut numbers, relations)?;
    let mut found = ExprList::new(alloc);
    if let Err(error) = push_conditions(alloc, &mut found, conditions) {
        forget(found);
        return Err(error);
    }
    Ok(Bound::Select(BoundSelect {
        relations: numbers,
        conditions: found,
        items: BoundItemList::new(alloc),
        group: ColumnAtList::new(alloc),
        order: BoundOrderList::new(alloc),
    }))
}
