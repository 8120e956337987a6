// The writers of a file: its start, and a scan. A scan's value is gathered in an array, since its length is not known before.
ghost use Rattle.std.specs.Prelude.{◌≡◌};
ghost use Rattle.ion.specs.Calls.Output.{put, put_after, wrote, wrote_after};
ghost use Rattle.scans.specs.Layout.{start_of};
ghost use Rattle.scans.specs.Scan.{scan_bytes, scan_check};
ghost use Rattle.scans.specs.declared.Layout.TheVariants.{New};

use crate::layout::START;
use binary::var_uint::VarUInt;
use ion::Refusal;
use scans::Scan;
use timestamp_binary::MAX_TIMESTAMP_LENGTH;

// Writes what a file begins with from index `at` on.
pub fn write_start(buf: &mut [u8], at: usize) -> Result<usize, Refusal>
    ensures value { result ≡ wrote buf.old at (start_of New) }
    ensures buffer { buf.new ≡ put buf.old at (start_of New) }
{
    output::put_bytes(buf, at, &START)
}

// Writes a scan from index `at` on.
#[tactic(auto, using(crate::proofs::Parts::parts), unfolding(scans::specs::Scan::scan_bytes, scans::specs::Scan::scan_check, ion::specs::Calls::Output::put_after, ion::specs::Calls::Output::wrote_after))]
pub fn write_scan(buf: &mut [u8], at: usize, scan: Scan) -> Result<usize, Refusal>
    ensures value { result ≡ wrote_after (scan_check scan) buf.old at (scan_bytes scan) }
    ensures buffer { buf.new ≡ put_after (scan_check scan) buf.old at (scan_bytes scan) }
{
    timestamp::check(scan.stamp)?;
    let mut bytes = [0u8; MAX_TIMESTAMP_LENGTH];
    let value = timestamp_binary::gathered_value(&mut bytes, scan.stamp);
    let site = VarUInt(scan.site as u64);
    let tag = VarUInt(scan.tag as u64);
    let guard = VarUInt(scan.guard as u64);
    output::write(buf, at, (site, (tag, (guard, value))))
}
