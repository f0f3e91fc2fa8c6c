//! What a primary and its standby write.
ghost use Rattle.std.specs.Prelude.{◌≤◌, ◌<◌, ◌^◌, All, length};
ghost use Rattle.plant_types.specs.Limits.{most_scans};
ghost use Rattle.plant_types.specs.Plans.{IsPlant};
ghost use Rattle.traffic_cop.specs.Rows.{IsRunnablePlan};

use plant_loader::{Version, load};
use plant_types::{Fate, MOST_SCANS, Plant};
use standby_pair::pair_run;
use std::alloc::Global;
use std::test::Fail;

/// A coil that follows another.
const PLANT: &str = "version = 1\n[[controller]]\nnode = 1\ncoils = 16\ninputs = 16\n\
    registers = 100\norders = [\"1 - - -\"]\npanel = [\"00001\"]\n\
    [[controller.segment]]\nnetworks = [\"1,1 NO 00002; 1,2 CO 00001\"]\n";

/// The same; power fails in the first scan, and the second is dark.
const DARK: &str = "version = 1\n[[controller]]\nnode = 1\ncoils = 16\ninputs = 16\n\
    registers = 100\norders = [\"1 - - -\"]\npower = [\"1 0 1\"]\npanel = [\"00001\"]\n\
    [[controller.segment]]\nnetworks = [\"1,1 NO 00002; 1,2 CO 00001\"]\n";

/// The watchdog stops the controller before its first network.
const STOPPING: &str = "version = 1\nwatchdog = 1\n[[controller]]\nnode = 1\ncoils = 16\n\
    inputs = 16\nregisters = 100\norders = [\"1 - - -\"]\npanel = [\"00001\"]\n\
    [[controller.segment]]\nnetworks = [\"1,1 NO 00002; 1,2 CO 00001\"]\n";

/// It turns the coil on.
const ON: &str = ":01050001FF00FA\r\n";

/// A plant, the letters of its fates, after which scan the primary fails of how many, how often the
/// frame that turns the coil on comes, and the lines that are written, in which R stands for the
/// reply.
struct Case {
    plant: &'static str,
    fates: &'static [Fate],
    fail: u32,
    scans: u32,
    asked: usize,
    lines: &'static str,
}

const CASES: [Case; 13] = [
    Case {
        plant: PLANT,
        fates: &[Fate::D],
        fail: 1,
        scans: 2,
        asked: 1,
        lines: "S 1 N 1 00001=0|R|SWITCH 1|R|S 2 N 1 00001=1|",
    },
    Case {
        plant: PLANT,
        fates: &[Fate::A],
        fail: 1,
        scans: 2,
        asked: 1,
        lines: "S 1 N 1 00001=0|SWITCH 1|R|S 2 N 1 00001=1|",
    },
    Case {
        plant: PLANT,
        fates: &[Fate::L],
        fail: 1,
        scans: 2,
        asked: 1,
        lines: "S 1 N 1 00001=0|SWITCH 0|S 1 N 1 00001=0|R|S 2 N 1 00001=1|",
    },
    // What was acknowledged before a packet's own transmission counts.
    Case {
        plant: PLANT,
        fates: &[Fate::L, Fate::D, Fate::D],
        fail: 2,
        scans: 2,
        asked: 2,
        lines: "S 1 N 1 00001=0|S 2 N 1 00001=1|R|R|SWITCH 2|R|",
    },
    // The first of two packets is not told to have arrived, so the second does not go out.
    Case {
        plant: PLANT,
        fates: &[Fate::L, Fate::A, Fate::D],
        fail: 2,
        scans: 3,
        asked: 3,
        lines: "S 1 N 1 00001=0|S 2 N 1 00001=1|SWITCH 1|R|S 2 N 1 00001=1|R|S 3 N 1 00001=1|R|",
    },
    // A packet that arrives a second time is acknowledged then.
    Case {
        plant: PLANT,
        fates: &[Fate::A, Fate::D],
        fail: 2,
        scans: 3,
        asked: 3,
        lines: "S 1 N 1 00001=0|S 2 N 1 00001=1|R|SWITCH 2|R|S 3 N 1 00001=1|R|",
    },
    // The primary makes all scans, and the last serves all frames that are left.
    Case {
        plant: PLANT,
        fates: &[Fate::D],
        fail: 2,
        scans: 2,
        asked: 4,
        lines: "S 1 N 1 00001=0|R|S 2 N 1 00001=1|R|R|R|SWITCH 2|R|R|R|",
    },
    Case {
        plant: PLANT,
        fates: &[Fate::L],
        fail: 2,
        scans: 2,
        asked: 4,
        lines: "S 1 N 1 00001=0|S 2 N 1 00001=1|SWITCH 0|S 1 N 1 00001=0|R|S 2 N 1 00001=1|R|R|R|",
    },
    // A stop before the primary fails: the frames that are left are served in that scan.
    Case {
        plant: STOPPING,
        fates: &[Fate::D],
        fail: 2,
        scans: 3,
        asked: 2,
        lines: "S 1 N 1 STOP 1|R|R|SWITCH 1|R|R|",
    },
    Case {
        plant: STOPPING,
        fates: &[Fate::L],
        fail: 2,
        scans: 3,
        asked: 2,
        lines: "S 1 N 1 STOP 1|SWITCH 0|S 1 N 1 STOP 1|R|R|",
    },
    // Requests without power have no reply, and count.
    Case {
        plant: DARK,
        fates: &[Fate::D],
        fail: 2,
        scans: 3,
        asked: 3,
        lines: "S 1 N 1 OFF|S 2 N 1 OFF|SWITCH 2|S 3 N 1 00001=0|R|",
    },
    Case {
        plant: DARK,
        fates: &[Fate::L],
        fail: 2,
        scans: 3,
        asked: 3,
        lines: "S 1 N 1 OFF|S 2 N 1 OFF|SWITCH 0|S 1 N 1 OFF|S 2 N 1 OFF|S 3 N 1 00001=0|R|",
    },
    // No frame, no reply.
    Case {
        plant: PLANT,
        fates: &[Fate::A],
        fail: 1,
        scans: 1,
        asked: 0,
        lines: "S 1 N 1 00001=0|SWITCH 1|",
    },
];

/// What a primary and its standby write in one plant with one controller.
fn text_in(alloc: Global, plant: &Plant, case: &Case, stream: &[u8]) -> Result<String, Fail>
    requires plant { IsPlant plant.now }
    requires runs { All IsRunnablePlan plant.now.controllers }
{
    let (time, watchdog) = (plant.scan_time, plant.watchdog);
    let [plan] = plant.controllers.as_slice() else {
        return Err("one controller")?;
    };
    if case.fates.is_empty() || case.fail == 0 || case.scans < case.fail || stream.len() > 2000 {
        return Err("a pair")?;
    }
    if case.scans > MOST_SCANS {
        return Err("scans")?;
    }
    let end = pair_run(
        alloc, plan, time, watchdog, case.fates, stream, case.fail, case.scans,
    )?;
    Ok(String::from_utf8_lossy(alloc, end.text.bytes())?)
}

/// The same of the text of a plant.
fn text_of(alloc: Global, case: &Case) -> Result<String, Fail> {
    let mut stream = String::new(alloc);
    for _ in 0..case.asked {
        stream.push_str(ON)?;
    }
    match load(alloc, Version::One, case.plant.as_bytes()) {
        Ok(plant) => text_in(alloc, &plant, case, stream.as_bytes()),
        Err(_) => Err("a plant")?,
    }
}

#[test]
fn writes(rt: HostRuntime) -> Result<(), Fail> {
    for case in &CASES {
        let wanted = case.lines.replace(rt.alloc(), "R|", ON)?;
        let wanted = wanted.replace(rt.alloc(), "|", "\n")?;
        let text = text_of(rt.alloc(), case)?;
        assert!(rt; text == wanted, "{text}");
    }
    Ok(())
}
