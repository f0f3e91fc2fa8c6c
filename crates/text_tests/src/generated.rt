//! Plants that are made from numbers, by their first and last lines.
use plant_gen::plant_from;
use std::test::Fail;

/// A plant: its number, how many bytes it has, and with which lines it begins and ends.
struct Case {
    number: u32,
    len: usize,
    begins: &'static str,
    ends: &'static str,
}

/// 2 controllers with 16 networks of contacts each, and 16 controllers with 15.
const CASES: [Case; 2] = [
    Case {
        number: 15,
        len: 2_844,
        begins: r#"version = 1
[[controller]]
node = 1
coils = 256
inputs = 16
registers = 60
orders = ["1 - 1 1"]
[[controller.drop]]
number = 1
modules = ["in 10001", "out 00001"]
script = ["D102", "A103", "7104", "4105", "1106", "E107", "B108", "8109"]
[[controller.segment]]
networks = [
"1,1 ADD 2 0 40001; 4,1 ADD 1 0 40003",
"1,1 ADD 1 0 40004; 4,1 ADD 2 0 40005",
"1,1 H; 1,2 MSTR 40001 40011 1",
"1,1 NO 10001; 2,1 NO 00001; 1,1 V; 1,2 NC 10003; 1,3 CO 00001",
"#,
        ends: r#""1,1 NO 10016; 2,1 NO 00016; 1,1 V; 1,2 NC 10003; 1,3 CO 00016",
]
"#,
    },
    Case {
        number: 14,
        len: 21_642,
        begins: r#"version = 1
[[controller]]
node = 1
coils = 256
inputs = 16
registers = 60
orders = ["1 - 1 1"]
[[controller.drop]]
number = 1
modules = ["in 10001", "out 00001"]
script = ["B213", "6325", "1437", "C549", "765B", "276D", "D87F", "8991"]
[[controller.segment]]
networks = [
"1,1 ADD 2 0 40001; 4,1 ADD 1 0 40003",
"1,1 ADD 1 0 40004; 4,1 ADD 2 0 40005",
"1,1 H; 1,2 MSTR 40001 40011 1",
"1,1 NO 10016; 2,1 NO 00001; 1,1 V; 1,2 NC 10003; 1,3 CO 00001",
"#,
        ends: r#""1,1 NO 10014; 2,1 NO 00015; 1,1 V; 1,2 NC 10016; 1,3 CO 00015",
]
"#,
    },
];

#[test]
fn makes_each_plant(rt: HostRuntime) -> Result<(), Fail> {
    let alloc = rt.alloc();
    for case in &CASES {
        let text = plant_from(alloc, case.number)?;
        assert_eq!(rt; text.len(), case.len);
        assert!(rt; text.starts_with(case.begins.as_bytes()));
        assert!(rt; text.ends_with(case.ends.as_bytes()));
    }
    Ok(())
}
