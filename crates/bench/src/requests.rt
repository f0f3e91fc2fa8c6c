//! How many requests of each function are answered in a second: decoded, executed on a store and
//! encoded.
use anyhow::Result;
use modbus_exec::answer;
use plant_types::MapRam;
use std::alloc::Global;
use std::io::Print;
use std::time::{Clock, Instant};

/// How often each request is answered.
const TIMES: u32 = 200_000;

/// A function by its name, and a request of it.
#[derive(Drop)]
struct Sample {
    name: &'static str,
    request: &'static [u8],
}

const SAMPLES: [Sample; 11] = [
    Sample {
        name: "1 read 16 coils",
        request: &[1, 0, 0, 0, 16],
    },
    Sample {
        name: "2 read 16 inputs",
        request: &[2, 0, 0, 0, 16],
    },
    Sample {
        name: "3 read 10 registers",
        request: &[3, 0, 0, 0, 10],
    },
    Sample {
        name: "4 read 8 input registers",
        request: &[4, 0, 0, 0, 8],
    },
    Sample {
        name: "5 write a coil",
        request: &[5, 0, 0, 0xff, 0],
    },
    Sample {
        name: "6 write a register",
        request: &[6, 0, 1, 0x12, 0x34],
    },
    Sample {
        name: "8 echo",
        request: &[8, 0, 0, 0xa5, 0x37],
    },
    Sample {
        name: "15 write 10 coils",
        request: &[15, 0, 0, 0, 10, 2, 0xcd, 1],
    },
    Sample {
        name: "16 write 2 registers",
        request: &[16, 0, 1, 0, 2, 4, 0, 10, 1, 2],
    },
    Sample {
        name: "22 mask a register",
        request: &[22, 0, 0, 0, 0xf2, 0, 0x25],
    },
    Sample {
        name: "23 write one, read one",
        request: &[23, 0, 0, 0, 1, 0, 0, 0, 1, 2, 0, 7],
    },
];

/// The requests answered in a second.
fn answers_in_a_second<R: Clock>(rt: &R, alloc: Global, request: &[u8]) -> Result<u128> {
    let mut ram = MapRam::new(alloc, 16, 16, 8, 124)?;
    if request.is_empty() {
        return Ok(0);
    }
    let start = Instant::now(rt)?;
    for _ in 0..TIMES {
        answer(alloc, request, &mut ram)?;
    }
    let spent = start.elapsed(rt)?.as_nanos();
    Ok(u128::from(TIMES) * 1_000_000_000 / spent.max(1))
}

/// Prints the requests answered in a second.
pub fn print_times<R: Clock + Print>(rt: &R, alloc: Global) -> Result<()> {
    println!(rt; "function                  requests in a second")?;
    for sample in SAMPLES {
        let name = sample.name;
        let each = answers_in_a_second(rt, alloc, sample.request)?;
        println!(rt; "{name:24}  {each:20}")?;
    }
    Ok(())
}
