// Text and value bytes, written and read, and single numbers written. C has a function for each.
ghost use Rattle.std.specs.Prelude.{◌≡◌};
ghost use Rattle.ion.specs.Pair.Pair.{packed_pair};
ghost use Rattle.ion.specs.Calls.Check.{check_of};
ghost use Rattle.ion.specs.Calls.Output.{put, wrote, put_after, wrote_after};
ghost use Rattle.ion.specs.Value.ReadValue.{read_value};
ghost use Rattle.ion.specs.Value.ReadPaddedValue.{read_padded_value};
ghost use Rattle.ion.specs.Text.Format.{text_of};
ghost use Rattle.ion.specs.Text.ReadText.{read_text_of};
ghost use Rattle.ion.specs.Value.Encode.{body_of, value_of};
ghost use Rattle.ion.specs.Numbers.Padded.{padded};
ghost use Rattle.ion.specs.Numbers.VarInt.{varint};
ghost use Rattle.ion.specs.Numbers.VarUInt.{varuint};
ghost use Rattle.test_results.specs.Answers.{AnswerIs, PairIs, ReadIs};

use binary::{var_int, var_uint};
use test_results::{pair, store, store_pair, store_read};
use text::text_formatter;

#[unsafe(no_mangle)]
pub extern "C" fn timestamp_text(w: u64, a: u64, buf: &mut [u8], written: &mut usize) -> u32
    ensures written { let s = packed_pair w a in
        AnswerIs (wrote_after (check_of s) buf.old 0 (text_of s)) 0 result written.new }
    ensures buffer { let s = packed_pair w a in
        buf.new ≡ put_after (check_of s) buf.old 0 (text_of s) }
{
    store(timestamp_text::format(buf, 0, pair(w, a)), 0, written)
}

#[unsafe(no_mangle)]
pub extern "C" fn timestamp_value(w: u64, a: u64, buf: &mut [u8], written: &mut usize) -> u32
    ensures written { let s = packed_pair w a in
        AnswerIs (wrote_after (check_of s) buf.old 0 (value_of s)) 0 result written.new }
    ensures buffer { let s = packed_pair w a in
        buf.new ≡ put_after (check_of s) buf.old 0 (value_of s) }
{
    store(
        timestamp_binary::encode_timestamp_value(buf, 0, pair(w, a)),
        0,
        written,
    )
}

#[unsafe(no_mangle)]
pub extern "C" fn timestamp_body(w: u64, a: u64, buf: &mut [u8], written: &mut usize) -> u32
    ensures written { let s = packed_pair w a in
        AnswerIs (wrote_after (check_of s) buf.old 0 (body_of s)) 0 result written.new }
    ensures buffer { let s = packed_pair w a in
        buf.new ≡ put_after (check_of s) buf.old 0 (body_of s) }
{
    store(
        timestamp_binary::encode_timestamp(buf, 0, pair(w, a)),
        0,
        written,
    )
}

#[unsafe(no_mangle)]
pub extern "C" fn timestamp_read(
    input: &[u8],
    word: &mut u64,
    attoseconds: &mut u64,
    taken: &mut usize,
) -> u32
    ensures { ReadIs (read_value input.now) result word.new attoseconds.new taken.new }
{
    store_read(value_reader::read_value(input), word, attoseconds, taken)
}

#[unsafe(no_mangle)]
pub extern "C" fn timestamp_read_padded(
    input: &[u8],
    word: &mut u64,
    attoseconds: &mut u64,
    taken: &mut usize,
) -> u32
    ensures { ReadIs (read_padded_value input.now) result word.new attoseconds.new taken.new }
{
    store_read(
        padded_reader::read_padded_value(input),
        word,
        attoseconds,
        taken,
    )
}

#[unsafe(no_mangle)]
pub extern "C" fn timestamp_read_text(s: &[u8], word: &mut u64, attoseconds: &mut u64) -> u32
    ensures { PairIs (read_text_of s.now) result word.new attoseconds.new }
{
    store_pair(text_reader::read_text(s), word, attoseconds)
}

// ---- single numbers

#[unsafe(no_mangle)]
pub extern "C" fn write_var_uint(value: u64, buf: &mut [u8], written: &mut usize) -> u32
    ensures written { AnswerIs (wrote buf.old 0 (varuint value)) 0 result written.new }
    ensures buffer { buf.new ≡ put buf.old 0 (varuint value) }
{
    store(var_uint::write_u64(buf, 0, value), 0, written)
}

#[unsafe(no_mangle)]
pub extern "C" fn write_var_int(value: i64, buf: &mut [u8], written: &mut usize) -> u32
    ensures written { AnswerIs (wrote buf.old 0 (varint value)) 0 result written.new }
    ensures buffer { buf.new ≡ put buf.old 0 (varint value) }
{
    store(var_int::write_i64(buf, 0, value), 0, written)
}

#[unsafe(no_mangle)]
pub extern "C" fn write_zero_padded(
    value: u64,
    width: usize,
    buf: &mut [u8],
    written: &mut usize,
) -> u32
    ensures written { AnswerIs (wrote buf.old 0 (padded width value)) 0 result written.new }
    ensures buffer { buf.new ≡ put buf.old 0 (padded width value) }
{
    store(
        text_formatter::write_zero_padded(buf, 0, value, width),
        0,
        written,
    )
}
