//! Laws of the encodings.
ghost use Rattle.row_codec.specs.Laws.{KeyOrder, OneSpelling, NeverBoth, OneFault};
ghost use Rattle.iv_types.specs.Encoding.{value_bytes, key_value_bytes};
ghost use Rattle.iv_types.specs.BadRow.{RowBreaks, KeyBreaks};

/// The bytes of keys stand in lexicographic order as their values do.
pub fn key_order_law()
    ensures { KeyOrder }
{}

/// A row has one spelling, no bytes are a row and bad, and bad bytes break one rule at one place.
pub fn row_law()
    ensures spelling { OneSpelling value_bytes }
    ensures apart { NeverBoth value_bytes RowBreaks }
    ensures fault { OneFault value_bytes RowBreaks }
{}

/// A key has one spelling, no bytes are a key and bad, and bad bytes break one rule at one place.
pub fn key_law()
    ensures spelling { OneSpelling key_value_bytes }
    ensures apart { NeverBoth key_value_bytes KeyBreaks }
    ensures fault { OneFault key_value_bytes KeyBreaks }
{}
