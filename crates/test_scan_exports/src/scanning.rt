// Scans and the start of a file written, scans read, and files of them told apart and checked.
ghost use Rattle.std.specs.Prelude.{◌≡◌};
ghost use Rattle.ion.specs.Pair.Pair.{packed_pair};
ghost use Rattle.ion.specs.Calls.Output.{put, put_after, wrote, wrote_after};
ghost use Rattle.scans.specs.Layout.{start_of, layout_of};
ghost use Rattle.scans.specs.Scan.{scan_of, scan_bytes, scan_check, read_scan};
ghost use Rattle.scans.specs.File.{check_file_of};
ghost use Rattle.scans.specs.declared.Layout.TheVariants.{New};
ghost use Rattle.test_results.specs.Answers.{AnswerIs};
ghost use Rattle.test_scan_exports.specs.Answers.{ScanIs, code_of, layout_from};

use crate::answers::store_scan;
use scans::{Layout, Scan};
use test_results::{pair, store};

#[unsafe(no_mangle)]
pub extern "C" fn file_layout(input: &[u8]) -> u32
    ensures { result ≡ code_of (layout_of input.now) }
{
    match scan_binary::layout_of(input) {
        Layout::Old => 0,
        Layout::New => 1,
    }
}

#[unsafe(no_mangle)]
pub extern "C" fn scan_read(
    input: &[u8],
    layout: u32,
    site: &mut u32,
    tag: &mut u32,
    guard: &mut u32,
    word: &mut u64,
    attoseconds: &mut u64,
    taken: &mut usize,
) -> u32
    ensures { ScanIs (read_scan (layout_from layout) input.now) result site.new tag.new
        guard.new word.new attoseconds.new taken.new }
{
    let layout = if layout == 0 {
        Layout::Old
    } else {
        Layout::New
    };
    store_scan(
        scan_binary::read_scan(input, layout),
        site,
        tag,
        guard,
        word,
        attoseconds,
        taken,
    )
}

#[unsafe(no_mangle)]
pub extern "C" fn start_write(buf: &mut [u8], at: usize, written: &mut usize) -> u32
    ensures written { AnswerIs (wrote buf.old at (start_of New)) 0 result written.new }
    ensures buffer { buf.new ≡ put buf.old at (start_of New) }
{
    store(scan_binary::write_start(buf, at), 0, written)
}

#[unsafe(no_mangle)]
pub extern "C" fn scan_write(
    site: u32,
    tag: u32,
    guard: u32,
    w: u64,
    a: u64,
    buf: &mut [u8],
    at: usize,
    written: &mut usize,
) -> u32
    ensures written { let x = scan_of site tag guard (packed_pair w a) in
        AnswerIs (wrote_after (scan_check x) buf.old at (scan_bytes x)) 0 result written.new }
    ensures buffer { let x = scan_of site tag guard (packed_pair w a) in
        buf.new ≡ put_after (scan_check x) buf.old at (scan_bytes x) }
{
    let scan = Scan {
        site,
        tag,
        guard,
        stamp: pair(w, a),
    };
    store(scan_binary::write_scan(buf, at, scan), 0, written)
}

#[unsafe(no_mangle)]
pub extern "C" fn file_check(input: &[u8], scans: &mut usize) -> u32
    ensures { AnswerIs (check_file_of input.now) 0 result scans.new }
{
    store(scan_binary::check_file(input), 0, scans)
}
