// Prints the report over network.gr, reports.csv and thresholds.csv of the current folder.
#![tactic(auto)]

mod files;

ghost use Rattle.std.specs.Prelude.{◌≤◌, length};
ghost use Rattle.report.specs.Report.{report_room};
ghost use Rattle.kcount.specs.Held.{Held, HeldOfFronts, RoomToRead};

use std::rt::Files;

// One byte more than a text may have, so that a longer one is refused and not cut off.
const TEXT: usize = reading::MAX_BYTES + 1;

// Writes the bytes of the report at the front of the list, and answers how many they are.
fn fill(network: &[u8], reports: &[u8], thresholds: &[u8], out: &mut [u8]) -> usize
    requires { report_room ≤ length out.old }
    ensures { Held network.now reports.now thresholds.now result out.new }
{
    // There is room enough, so that the report is never refused.
    report::report(network, reports, thresholds, out).unwrap()
}

// Reads the three files, each into its list, and fills the last list with the report over what was read. That this is what the files
// hold is not promised: no contract says what is read of a file of the system.
fn run(
    rt: &impl Files,
    network: &mut [u8],
    reports: &mut [u8],
    thresholds: &mut [u8],
    out: &mut [u8],
) -> usize
    requires { RoomToRead network.old reports.old thresholds.old out.old }
    ensures { HeldOfFronts network.new reports.new thresholds.new result out.new }
{
    let a = files::read(rt, "network.gr", network);
    let b = files::read(rt, "reports.csv", reports);
    let c = files::read(rt, "thresholds.csv", thresholds);
    fill(&network[..a], &reports[..b], &thresholds[..c], out)
}

fn main(rt: HostRuntime) {
    let mut network = [0u8; TEXT];
    let mut reports = [0u8; TEXT];
    let mut thresholds = [0u8; TEXT];
    let mut out = [0u8; report::REPORT_ROOM];
    let count = run(&rt, &mut network, &mut reports, &mut thresholds, &mut out);
    files::print(&mut rt.stdout(), &rt, rt.alloc(), &out[..count]);
}
