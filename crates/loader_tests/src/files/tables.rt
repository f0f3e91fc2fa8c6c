// Parts of plants, and how each is answered; `|` stands for a line end.

// What stands before the orders of plants, in the order of the tests: the version, the table of the
// plant, its controllers.
pub const BAD_TABLES: &str = r#"name = 1|[[controller]]|node = 1 => 2 BadKey plant
version = 0|name = 1|[[controller]]|node = 1 => 4 BadVersion plant
version = 3|[[controller]]|node = 1 => 4 BadVersion plant
version = -1|[[controller]]|node = 1 => 4 BadVersion plant
version = "1"|[[controller]]|node = 1 => 3 BadValue plant
version = 1.0|[[controller]]|node = 1 => 3 BadValue plant
version = 1|name = 1|net = 1|[[controller]]|node = 1 => 2 BadKey plant
version = 1|host = []|[[controller]]|node = 0 => 12 BadNode controller 1
version = 1|scan_time = 0|[[controller]]|node = 1|[[controller]]|node = 2 => 3 BadValue plant
version = 1|name = 1|scan_time = 0|[[controller]]|node = 1 => 2 BadKey plant
version = 1|scan_time = 0|[[controller]]|node = 1 => 3 BadValue plant
version = 1|scan_time = 1001|[[controller]]|node = 1 => 3 BadValue plant
version = 1|scan_time = -1|[[controller]]|node = 1 => 3 BadValue plant
version = 1|scan_time = "10"|[[controller]]|node = 1 => 3 BadValue plant
version = 1|scan_time = 10.0|[[controller]]|node = 1 => 3 BadValue plant
version = 1|watchdog = 0|[[controller]]|node = 1 => 3 BadValue plant
version = 1|watchdog = 10001|[[controller]]|node = 0 => 3 BadValue plant
version = 1|[controller]|node = 1 => 3 BadValue plant"#;

// What stands before the orders of a controller.
pub const BAD_CONTROLLERS: &str = r#"name = 1 => 2 BadKey controller 1
coils = 1 => 2 BadKey controller 1
node = 0 => 12 BadNode controller 1
node = 65|coils = 1 => 12 BadNode controller 1
node = -1 => 12 BadNode controller 1
node = 1.0 => 3 BadValue controller 1
node = 1|coils = 9985 => 3 BadValue controller 1
node = 1|coils = 10000 => 3 BadValue controller 1
node = 1|coils = 17 => 3 BadValue controller 1
node = 1|inputs = 8 => 3 BadValue controller 1
node = 1|input_registers = 9985 => 3 BadValue controller 1
node = 1|input_registers = -1 => 3 BadValue controller 1
node = 1|input_registers = "1" => 3 BadValue controller 1
node = 1|registers = 9985 => 3 BadValue controller 1
node = 1|panel = "00001" => 3 BadValue controller 1
node = 1|panel = ["00001", 1] => 3 BadValue controller 1
node = 1|panel = ["00001"] => 5 BadRef controller 1 panel 1
node = 1|coils = 16|panel = ["00016", "00017"] => 5 BadRef controller 1 panel 2
node = 1|coils = 16|panel = ["00001 00002"] => 5 BadRef controller 1 panel 1
node = 1|coils = 16|panel = ["1"] => 5 BadRef controller 1 panel 1
node = 1|input_registers = 10|panel = ["30011"] => 5 BadRef controller 1 panel 1
node = 1|drop = 1 => 3 BadValue controller 1
node = 1|drop = [1] => 3 BadValue controller 1
node = 1|powers = [] => 2 BadKey controller 1"#;

// Orders and segments in plants that are refused; `@` stands for an empty segment, and `(..)` for
// one of these networks.
pub const BAD_ORDERS: &str = r#"orders = [1] => 3 BadValue controller 1
orders = "1 - - -" => 3 BadValue controller 1
orders = ["1 - -"]|@ => 9 BadOrder controller 1 order 1
orders = ["1 - - - -"]|@ => 9 BadOrder controller 1 order 1
orders = ["0 - - -"]|@ => 9 BadOrder controller 1 order 1
orders = ["01 - - -"]|@ => 9 BadOrder controller 1 order 1
orders = ["2 - - -"]|@ => 9 BadOrder controller 1 order 1
orders = ["1 - - -", "1 - - 1"]|@ => 9 BadOrder controller 1 order 2
orders = ["1 0001 - -"]|@ => 9 BadOrder controller 1 order 1
orders = ["1 40001 1 -"]|@ => 9 BadOrder controller 1 order 1
orders = ["1 00017 - -"]|@ => 5 BadRef controller 1 order 1
orders = ["1 40001 - -"]|@ => 5 BadRef controller 1 order 1
orders = ["1 20001 - -", ""]|@ => 5 BadRef controller 1 order 1
orders = ["1 - - -"]|panel = ["00000"] => 9 BadOrder controller 1 order 1
orders = ["1 - - -"]|[[controller.segment]] => 2 BadKey controller 1 segment 1
orders = ["x"]|@|name = 1 => 2 BadKey controller 1 segment 1
orders = ["2 - - -"]|segment = [(), ("1,1 LAB 1")] => 9 BadOrder controller 1 order 1
orders = ["x"]|power = 1 => 3 BadValue controller 1
power = ["1 0 0", 1]|panel = ["00000"] => 3 BadValue controller 1
orders = ["x"]|power = ["x"] => 9 BadOrder controller 1 order 1
power = ["x"]|panel = ["00000"] => 15 BadPower controller 1 power 1
power = ["1 1 0"]|panel = ["00000"] => 15 BadPower controller 1 power 1
power = ["1 0 0"]|panel = ["00000"] => 5 BadRef controller 1 panel 1"#;

// Power rows of a controller with one order row.
pub const POWER_ROWS: &str = r#" => taken
"1 0 0" => taken
" 2000\t1  2000 " => taken
"1 0 0", "2 1 0" => taken
"1 0 2", "4 0 0", "5 0 9" => taken
"1 9 0" => 15 BadPower controller 1 power 1
"" => 15 BadPower controller 1 power 1
"1 0" => 15 BadPower controller 1 power 1
"1 0 0 0" => 15 BadPower controller 1 power 1
"1 - 0" => 15 BadPower controller 1 power 1
"01 0 0" => 15 BadPower controller 1 power 1
"+1 0 0" => 15 BadPower controller 1 power 1
"0 0 0" => 15 BadPower controller 1 power 1
"2001 0 0" => 15 BadPower controller 1 power 1
"1 2 0" => 15 BadPower controller 1 power 1
"1 0 2001" => 15 BadPower controller 1 power 1
"1 4294967296 0" => 15 BadPower controller 1 power 1
"1 0 0", "1 0 0" => 15 BadPower controller 1 power 2
"1 0 2", "3 0 0" => 15 BadPower controller 1 power 2
"1 0 0", "5 0 0", "4 0 0" => 15 BadPower controller 1 power 3
"9 0 2000", "2000 0 0", "1 9 0" => 15 BadPower controller 1 power 2"#;

// Segments that are refused, of which `(..)` stands for one of these networks.
pub const BAD_SEGMENTS: &str = r#"[(), 1] => 3 BadValue controller 1
[{ networks = 1 }] => 3 BadValue controller 1 segment 1
[("1,1 x", 1)] => 3 BadValue controller 1 segment 1
[("1,1 x"), {}] => 6 BadCell controller 1 segment 1 network 1 cell 1
[(), ("", "1,1 CO 00001; 2,1 x")] => 6 BadCell controller 1 segment 2 network 2 cell 2
[("1,1 CO 00001"), ("1,1 CO 00001")] => 8 CoilTwice controller 1 segment 2 network 1 cell 1
[("1,1 LAB 1"), ()] => 7 BadShape controller 1 segment 1 network 1 cell 1
[("1,2 LAB 1")] => 7 BadShape controller 1 segment 1 network 1 cell 1
[("2,1 LAB 1")] => 7 BadShape controller 1 segment 1 network 1 cell 1
[("1,1 LAB 7", "1,2 H; 1,1 LAB 7")] => 7 BadShape controller 1 segment 1 network 2 cell 2"#;

// Drops that are refused; `%` stands for the head of one.
pub const BAD_DROPS: &str = r#"number = 1 => 2 BadKey controller 1 drop 1
modules = [] => 2 BadKey controller 1 drop 1
number = 1|modules = []|name = 1 => 2 BadKey controller 1 drop 1
number = 0|modules = [] => 3 BadValue controller 1 drop 1
number = 33|modules = [] => 3 BadValue controller 1 drop 1
number = 1|modules = [1] => 3 BadValue controller 1 drop 1
number = 1|modules = ["x"]|script = 1 => 3 BadValue controller 1 drop 1
number = 7|modules = []|%|number = 7|modules = [""] => 10 BadDrop controller 1 drop 2"#;

// Modules of a drop that do not read or are not aligned.
pub const BAD_MODULES: &str = r#""" => 1
"in 10001", "In 10001" => 2
"in 10001 1" => 1
"inw 30001" => 1
"inw 30001 1 1" => 1
"inw 30001 0" => 1
"inw 00001 17" => 1
"outw 40001 01" => 1
"in 1" => 1
"in 00002" => 1
"out 00016" => 1"#;

// Modules of a drop whose references are not there.
pub const LACKING_MODULES: &str = r#""in 20001" => 1
"in 00001" => 1
"in 10033" => 1
"in 19985" => 1
"inw 30006 16" => 1
"outw 30001 1" => 1
"inw 30000 1" => 1"#;

// Modules of 64 words in with those before them, and of more.
pub const WORDS: &str = r#""inw 30001 16" => taken
"inw 30001 16", "in 10001" => 13 TooLarge controller 1 drop 1"#;

// Modules and scripts of a drop that is refused at a row.
pub const BAD_SCRIPTS: &str = r#"modules = ["in 10001"]|script = ["x"] => 1
modules = ["in 10001"]|script = ["X", "X X"] => 2
modules = ["in 10001"]|script = [""] => 1
modules = ["in 10001"]|script = ["8000 0"] => 1
modules = ["in 10001"]|script = ["800"] => 1
modules = ["in 10001"]|script = ["080000"] => 1
modules = ["in 10001"]|script = ["g000"] => 1
modules = ["out 00001"]|script = ["0000"] => 1
modules = ["inw 30001 3"]|script = ["0 0 0"] => 1
modules = ["inw 30001 3"]|script = ["0001 0002"] => 1"#;

// Plants of several stations and a network, in the order of the tests.
pub const PLANTS: &str = r#"net = 1|controller = [{ node = 1 }] => 3 BadValue plant
controller = [] => 3 BadValue plant
controller = [1] => 3 BadValue plant
host = 1|controller = [{ node = 1 }] => 3 BadValue plant
host = [1]|controller = [{ node = 0 }] => 3 BadValue plant
net = { name = 1 }|controller = [{ node = 0 }] => 2 BadKey net
net = { fates = 1 }|controller = [{ node = 0 }] => 3 BadValue net
net = { fates = "" }|controller = [{ node = 1 }] => 3 BadValue net
net = { fates = "DLAd" }|controller = [{ node = 1 }] => 3 BadValue net
net = { answer = 1 }|controller = [{ node = 1 }] => 3 BadValue net
net = { answer = 1001 }|controller = [{ node = 1 }] => 3 BadValue net
net = { rotations = 0 }|controller = [{ node = 1 }] => 3 BadValue net
net = { rotations = 11 }|controller = [{ node = 1 }] => 3 BadValue net
net = { rounds = 0 }|controller = [{ node = 1 }] => 3 BadValue net
net = { rounds = 101 }|controller = [{ node = 1 }] => 3 BadValue net
net = { holds = 0 }|controller = [{ node = 1 }] => 3 BadValue net
net = { holds = 100001 }|controller = [{ node = 1 }] => 3 BadValue net
net = { holds = "1" }|controller = [{ node = 1 }] => 3 BadValue net
net = {}|controller = [{ node = 1 }]|host = [] => taken
network = [{ number = 1 }]|controller = [{ node = 1 }] => 2 BadKey plant
bridges = []|controller = [{ node = 1 }] => 2 BadKey plant
controller = [{ node = 1, network = 1 }] => 2 BadKey controller 1
controller = [{ node = 1 }]|host = [{ node = 2, network = 1 }] => 2 BadKey host 1
controller = [{ node = 1 }, { node = 0 }] => 12 BadNode controller 2
controller = [{ node = 7 }, { node = 7 }] => 12 BadNode controller 2
controller = [{ node = 7 }, { node = 7, coils = 1 }] => 3 BadValue controller 2
controller = [{ node = 7 }, { node = 7, panel = ["x"] }] => 12 BadNode controller 2
controller = [{ node = 2, panel = ["x"] }, { node = 0 }] => 5 BadRef controller 1 panel 1
controller = [{ node = 2 }, { node = 1, drop = [{}] }] => 2 BadKey controller 2 drop 1
controller = [{ node = 2 }, { node = 1, segment = [{}] }] => 2 BadKey controller 2 segment 1
controller = [{ node = 2 }, { node = 1, orders = ["x"] }] => 9 BadOrder controller 2 order 1
controller = [{ node = 1, panel = ["x"] }]|host = [{}] => 5 BadRef controller 1 panel 1
controller = [{ node = 1 }]|host = [{}] => 2 BadKey host 1
controller = [{ node = 1 }]|host = [{ node = 2, name = 1 }] => 2 BadKey host 1
controller = [{ node = 1 }]|host = [{ node = 65 }] => 12 BadNode host 1
controller = [{ node = 1 }]|host = [{ node = 1, requests = 1 }] => 3 BadValue host 1
controller = [{ node = 1 }]|host = [{ node = 1, requests = ["x"] }] => 12 BadNode host 1
controller = [{ node = 1 }]|host = [{ node = 2 }, { node = 2 }] => 12 BadNode host 2
controller = [{ node = 1 }]|host = [{ node = 2, requests = [""]}, {}] => 3 BadValue host 1 request 1
controller = [{ node = 1 }, { node = 3 }]|host = [{ node = 4 }, { node = 3}] => 12 BadNode host 2"#;

// Requests of the host of node 2.
pub const REQUESTS: &str = r#""10000 64 0300000002" => taken
" 1\t1  aB " => taken
"" => 3 BadValue host 1 request 1
"1 1" => 3 BadValue host 1 request 1
"1 1 03 00" => 3 BadValue host 1 request 1
"0 1 03" => 3 BadValue host 1 request 1
"10001 1 03" => 3 BadValue host 1 request 1
"99999999999999999999 1 03" => 3 BadValue host 1 request 1
"01 1 03" => 3 BadValue host 1 request 1
"+1 1 03" => 3 BadValue host 1 request 1
"1 01 03" => 3 BadValue host 1 request 1
"1 00 03" => 3 BadValue host 1 request 1
"1 x 03" => 3 BadValue host 1 request 1
"1 9.5 03" => 3 BadValue host 1 request 1
"1 9. 03" => 3 BadValue host 1 request 1
"1 .9 03" => 3 BadValue host 1 request 1
"1 . 03" => 3 BadValue host 1 request 1
"1 0.65.x 03" => 3 BadValue host 1 request 1
"1 65 0" => 3 BadValue host 1 request 1
"1 2 0g" => 3 BadValue host 1 request 1
"1 0 03" => 12 BadNode host 1 request 1
"1 65 03" => 12 BadNode host 1 request 1
"1 18446744073709551617 03" => 12 BadNode host 1 request 1
"1 2 03" => 12 BadNode host 1 request 1
"1 1 03", "1 2 03", "x" => 12 BadNode host 1 request 2"#;

// What stands between the version and the orders of plants that are taken.
pub const TAKEN_PLANTS: &str = r#"[[controller]]|node = 64 => taken
watchdog = 500|[[controller]]|node = 1 => taken
watchdog = 1|[[controller]]|node = 1 => taken
watchdog = 10000|[[controller]]|node = 1 => taken
scan_time = 1|[[controller]]|node = 1 => taken
scan_time = 1000|[[controller]]|node = 1 => taken
[[controller]]|node = 1|input_registers = 9984|panel = ["39984"] => taken
[[controller]]|node = 1|registers = 9984|coils = 9984|inputs = 9984|panel = [] => taken
[[controller]]|node = 1|drop = [] => taken"#;

// What stands behind the first keys of a controller in plants that are taken: no orders at all,
// several rows, a control, several segments, and drops.
pub const TAKEN_ENDS: &str = r#" => taken
orders = []|@ => taken
orders = ["1 - - -", "1 - - -"]|@ => taken
orders = ["1 00016 - -"]|@ => taken
orders = ["2 - - -"]|segment = [(), ()] => taken
orders = ["1 - - -"]|segment = [(), ("1,1 LAB 1", "1,1 LAB 2")] => taken
orders = ["1 - 1 -"]|segment = [()]|drop = [{ number = 1, modules = [)] => taken
orders = ["1 - 7 7"]|segment = [()]|drop = [{ number = 7, modules = [)] => taken"#;
