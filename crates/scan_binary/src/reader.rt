// The reader of a scan: site, tag and guard, then the timestamp's value.
ghost use Rattle.std.specs.Prelude.{◌≡◌};
ghost use Rattle.scans.specs.Number.{read_number};
ghost use Rattle.scans.specs.Scan.{read_scan, read_site};

use binary::var_uint;
use ion::{NumberError, Refusal};
use scans::{Layout, Scan};

// The largest site, tag or guard.
const MAX_NUMBER: u64 = 4_294_967_295;

// Reads the number with which `s` begins, and tells how many bytes it takes.
#[tactic(auto, using(scan_laws::proofs::Numbers::found), unfolding(scans::specs::Number::read_number))]
fn read_number(s: &[u8]) -> Result<(u32, usize), Refusal>
    ensures { result ≡ read_number s.now }
{
    match var_uint::read_u64(s, 0, MAX_NUMBER) {
        Ok((value, taken)) => Ok((value as u32, taken)),
        Err(NumberError::Cut) => Err(Refusal::InputEnds),
        Err(NumberError::Bad) => Err(Refusal::Number),
    }
}

// Reads the site with which `s` begins: in the old layout none, which is 0.
fn read_site(s: &[u8], layout: Layout) -> Result<(u32, usize), Refusal>
    ensures { result ≡ read_site layout s.now }
{
    match layout {
        Layout::Old => Ok((0, 0)),
        Layout::New => read_number(s),
    }
}

// Reads the scan with which `s` begins, as a file of that layout has it after its start: the scan, and how many bytes it takes.
// Bytes after it are not read.
#[tactic(auto, using(scan_laws::proofs::Reading::parts), unfolding(scans::specs::Scan::read_scan))]
#[inline(always)]
pub fn read_scan(s: &[u8], layout: Layout) -> Result<(Scan, usize), Refusal>
    ensures { result ≡ read_scan layout s.now }
{
    // The site has a part of its own too: `s` handed on as it came would go through memory.
    let (site, after_site) = read_site(&s[0..], layout)?;
    let (tag, n) = read_number(&s[after_site..])?;
    let after_tag = after_site + n;
    let (guard, n) = read_number(&s[after_tag..])?;
    let after_guard = after_tag + n;
    let (stamp, n) = value_reader::read_value(&s[after_guard..])?;
    let scan = Scan {
        site,
        tag,
        guard,
        stamp,
    };
    Ok((scan, after_guard + n))
}
