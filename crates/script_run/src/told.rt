//! What the answer to a line tells.
ghost use Rattle.std.specs.Prelude.{◌↔◌, IsTrue};
ghost use Rattle.script_run.specs.Summary.{IsRolledBack, LacksMemory};

use memchr::memmem;

/// Whether a line is `s: ROLLBACK`, and its answer begins with `s OK 0`.
pub fn is_rolled_back(line: &[u8], answer: &[u8]) -> bool
    ensures { IsTrue result ↔ IsRolledBack line.now answer.now }
{
    match line.strip_suffix(b": ROLLBACK") {
        Some(session) => match answer.strip_prefix(session) {
            Some(rest) => rest.starts_with(b" OK 0\n"),
            None => false,
        },
        None => false,
    }
}

/// Whether a reply of code 29 stands in an answer.
pub fn lacks_memory(answer: &[u8]) -> bool
    ensures { IsTrue result ↔ LacksMemory answer.now }
{
    memmem::find(answer, b" ERR 29 NoMemory\n").is_some()
}
