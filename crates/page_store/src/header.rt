//! The fixed fields of a header.
ghost use Rattle.std.specs.Prelude.{◌≡◌, ◌+◌, ◌≤◌, ◌<◌, ◌^◌, drop, length};
ghost use Rattle.byteorder.specs.Endian.{big_bytes};
ghost use Rattle.disk_io.specs.Disk.{splice};
ghost use Rattle.page_store.specs.Publish.{header_bytes, InRange};

use crate::facts::HeaderFacts;
use byteorder::{BigEndian, ByteOrder};

/// A closed gate, and what stands behind each header's gate.
const BEGIN: &[u8; 8] = b"\0IVIEWDB";

fn put_bytes(header: &mut [u8], at: usize, bytes: &[u8])
    requires { at + length bytes.now ≤ length header.old }
    ensures { header.new ≡ splice at bytes.now header.old }
{
    header[at..at + bytes.len()].copy_from_slice(bytes);
}

fn put_u32(header: &mut [u8], at: usize, number: u32)
    requires { at + 4 ≤ length header.old }
    ensures bytes { header.new ≡ splice at (big_bytes 4 number) header.old }
    ensures in_range { number < 256 ^ 4 }
{
    let mut bytes = [0; 4];
    BigEndian::write_u32(&mut bytes, number);
    put_bytes(header, at, &bytes);
}

fn put_u64(header: &mut [u8], at: usize, number: u64)
    requires { at + 8 ≤ length header.old }
    ensures bytes { header.new ≡ splice at (big_bytes 8 number) header.old }
    ensures in_range { number < 256 ^ 8 }
{
    let mut bytes = [0; 8];
    BigEndian::write_u64(&mut bytes, number);
    put_bytes(header, at, &bytes);
}

/// Writes a header's fields into a buffer, with a closed gate and before its page map.
pub(crate) fn set_fields(header: &mut [u8], facts: &HeaderFacts, pages: u32, room: u64, redo: u64)
    requires { 64 ≤ length header.old }
    ensures bytes { header.new ≡ header_bytes facts.now pages room redo (drop 64 header.old) }
    ensures in_range { InRange facts.now }
{
    put_bytes(header, 0, BEGIN);
    put_u32(header, 8, facts.format);
    put_u32(header, 12, pages);
    put_u64(header, 16, room);
    put_u64(header, 24, facts.number);
    put_u64(header, 32, facts.commits);
    put_u64(header, 40, facts.next_entry);
    put_bytes(header, 48, &[facts.area, 0, 0, 0, 0, 0, 0, 0]);
    put_u64(header, 56, redo);
}
