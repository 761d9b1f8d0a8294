//! Intervals of keys as texts.
use crate::hexadecimal::write_hexadecimal;
use iv_types::Interval;

/// Writes the ends of an interval in hexadecimal digits, `none` where there is no high end.
pub fn write_interval(out: &mut String, interval: &Interval) -> anyhow::Result<()> {
    write_hexadecimal(out, interval.low.as_slice())?;
    out.push(' ')?;
    match &interval.high {
        Some(high) => write_hexadecimal(out, high.as_slice()),
        None => {
            out.push_str("none")?;
            Ok(())
        }
    }
}
