//! A row of a view that is not what the view has.
ghost use Rattle.std.specs.Prelude.{◌≡◌, ◌++◌, Some, IfOk, OnOk};
ghost use Rattle.iv_types.specs.Replies.{row_text};
ghost use Rattle.iv_meaning.specs.Objects.{schema_of, view_tree};
ghost use Rattle.iv_meaning.specs.Schema as schema;
ghost use Rattle.iv_meaning.specs.Schema.{numbered};
ghost use Rattle.image_refusals.specs.Lines.{named_group, numbers_of, side_text, row_line};

use engine_refusals::values_in;
use image_opening::WrongView;
use iv_types::{Bytes, Catalog, Definition, NoMemory, NumberList, Reply, Row, ViewDef};
use object_kinds::{group_kinds, numbered};
use sql_print::{push_bytes, push_signed, reply_text};
use std::alloc::Global;

// How many bytes the word of a reply with a row has.
const ROW: usize = 3;

// Values, a space before each.
fn push_values(alloc: Global, text: &mut Vec<u8>, values: Row) -> Result<(), NoMemory>
    ensures { OnOk result (text.new.items ≡ text.old.items ++ row_text values) }
{
    let reply = reply_text(alloc, None, &Reply::Row(values))?;
    push_bytes(text, &reply.as_slice()[ROW..])
}

// Numbers, a space before each.
fn push_numbers(text: &mut Vec<u8>, numbers: &NumberList) -> Result<(), NoMemory>
    ensures { OnOk result (text.new.items ≡ text.old.items ++ numbers_of numbers.now) }
{
    for number in numbers.as_slice() {
        text.push(b' ')?;
        push_signed(text, *number)?;
    }
    Ok(())
}

// The numbers of a side, or that it has no row.
fn push_side(text: &mut Vec<u8>, side: &Option<NumberList>) -> Result<(), NoMemory>
    ensures { OnOk result (text.new.items ≡ text.old.items ++ side_text side.now) }
{
    match side {
        Some(numbers) => push_numbers(text, numbers),
        None => push_bytes(text, b" NONE"),
    }
}

// The name of a view, and the values of a group.
fn push_view(
    alloc: Global,
    text: &mut Vec<u8>,
    catalog: &Catalog,
    view: &ViewDef,
    group: &Bytes,
) -> Result<(), NoMemory>
    ensures { OnOk result (text.new.items ≡ text.old.items ++ named_group (schema_of catalog.now) (Some (schema.view (view_tree view.now))) group.now) }
{
    let kinds = group_kinds(alloc, catalog, view)?;
    text.push(b' ')?;
    push_bytes(text, view.name.as_slice())?;
    push_values(
        alloc,
        text,
        values_in(alloc, kinds.as_slice(), group.as_slice())?,
    )
}

// The same of an object by its number.
fn push_group(
    alloc: Global,
    text: &mut Vec<u8>,
    catalog: &Catalog,
    view: u32,
    group: &Bytes,
) -> Result<(), NoMemory>
    ensures { OnOk result (text.new.items ≡ text.old.items ++ named_group (schema_of catalog.now) (numbered (schema_of catalog.now) view) group.now) }
{
    match numbered(catalog, view) {
        Some(Definition::View(view)) => push_view(alloc, text, catalog, view, group),
        _ => Ok(()),
    }
}

/// The line that tells a row of a view that is wrong: the name of the view, the values of the group, and the numbers on each side.
///
/// # Errors
///
/// Where there is no memory for it.
pub fn row_line(alloc: Global, wrong: &WrongView) -> Result<Vec<u8>, NoMemory>
    ensures { IfOk result (λ line. line.items ≡ row_line (schema_of wrong.now.catalog) wrong.now.row) }
{
    let mut line = Vec::new(alloc);
    push_bytes(&mut line, b"BADVIEW")?;
    push_group(
        alloc,
        &mut line,
        &wrong.catalog,
        wrong.row.view,
        &wrong.row.group,
    )?;
    push_bytes(&mut line, b" STORED")?;
    push_side(&mut line, &wrong.row.stored)?;
    push_bytes(&mut line, b" FRESH")?;
    push_side(&mut line, &wrong.row.fresh)?;
    line.push(b'\n')?;
    Ok(line)
}
