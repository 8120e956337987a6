// Records of a scan read and of a file checked: the answer and the layout stand before the input, which is the rest of the record.
ghost use Rattle.std.specs.Prelude.{◌≡◌, ◌<◌};
ghost use Rattle.test_cases.specs.Agreement.{recorded_layout, recorded_scan, same_scan, is_read, scan_agrees, file_agrees};

use ion::Refusal;
use ion::refusal::number_in;
use scans::{Layout, Scan};
use test_answers::{NO_STAMP, byte_at, half_at, pair_at};

// What a refusal has where there must be a scan.
const NO_SCAN: Scan = Scan {
    site: 0,
    tag: 0,
    guard: 0,
    stamp: NO_STAMP,
};

// A layout among a record's bytes: 0 for the old one, 1 for the new one.
#[tactic(auto, unfolding(crate::specs::Agreement::recorded_layout))]
fn layout_at(r: &[u8], at: usize) -> Layout
    ensures { result ≡ recorded_layout r.now at }
{
    if byte_at(r, at) == 0 {
        Layout::Old
    } else {
        Layout::New
    }
}

// A scan among a record's bytes: site, tag, guard and pair.
#[tactic(auto, unfolding(crate::specs::Agreement::recorded_scan))]
pub(crate) fn scan_at(r: &[u8], at: usize) -> Scan
    requires { at < 100 }
    ensures { result ≡ recorded_scan r.now at }
{
    Scan {
        site: half_at(r, at),
        tag: half_at(r, at + 4),
        guard: half_at(r, at + 8),
        stamp: pair_at(r, at + 12),
    }
}

// By their numbers: timestamps have no `==` of their own, since that of the port is by instant.
fn is_same(x: Scan, y: Scan) -> bool
    ensures { result ≡ same_scan x y }
{
    let (s, t) = (x.stamp, y.stamp);
    (x.site, x.tag, x.guard, s.packed_fields, s.attoseconds)
        == (y.site, y.tag, y.guard, t.packed_fields, t.attoseconds)
}

// Whether an answer is the number, the scan and how many bytes it takes.
#[tactic(auto, unfolding(crate::specs::Agreement::is_read))]
fn is_read(a: Result<(Scan, usize), Refusal>, r: &[u8]) -> bool
    ensures { result ≡ is_read a r.now }
{
    let (scan, taken) = a.unwrap_or((NO_SCAN, 0));
    (number_in(&a), taken) == (u32::from(byte_at(r, 0)), usize::from(byte_at(r, 30)))
        && is_same(scan, scan_at(r, 2))
}

#[tactic(auto, unfolding(crate::specs::Agreement::scan_agrees))]
pub(crate) fn scan_agrees(r: &[u8]) -> bool
    ensures { result ≡ scan_agrees r.now }
{
    match r.split_at_checked(32) {
        Some((_, input)) => is_read(scan_binary::read_scan(input, layout_at(r, 1)), r),
        None => false,
    }
}

#[tactic(auto, unfolding(crate::specs::Agreement::file_agrees))]
pub(crate) fn file_agrees(r: &[u8]) -> bool
    ensures { result ≡ file_agrees r.now }
{
    let Some((_, input)) = r.split_at_checked(4) else {
        return false;
    };
    let a = scan_binary::check_file(input);
    byte_at(r, 1) <= 1
        && scan_binary::layout_of(input) == layout_at(r, 1)
        && (number_in(&a), a.unwrap_or(0)) == (u32::from(byte_at(r, 0)), usize::from(byte_at(r, 2)))
}
