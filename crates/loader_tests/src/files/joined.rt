// Parts of plants of several networks, and how each is answered; `|` stands for a line end.

// Plants in the order of the tests: the table of the plant, what all networks share, and each.
pub const NETWORKS: &str = r#"controller = [{ node = 1, network = 1 }] => 2 BadKey plant
network = [{ number = 1 }] => 2 BadKey plant
network = []|controller = [{ node = 1, network = 1 }]|name = 1 => 2 BadKey plant
network = []|controller = [{ node = 0, network = 1 }] => 3 BadValue plant
network = 1|controller = [{ node = 0, network = 1 }] => 3 BadValue plant
network = { number = 1 }|controller = [{ node = 0, network = 1 }] => 3 BadValue plant
network = [1]|controller = [{ node = 0, network = 1 }] => 3 BadValue plant
network = [{}]|controller = [] => 3 BadValue plant
network = [{}]|controller = [{}]|bridges = "1 9 2 12" => 3 BadValue plant
network = [{}]|controller = [{}]|bridges = [1] => 3 BadValue plant
net = { fates = "D" }|network = [{}]|controller = [{}] => 2 BadKey net
net = { answer = 1 }|network = [{}]|controller = [{}] => 3 BadValue net
network = [{}]|controller = [{}] => 2 BadKey network 1
network = [{ number = 1, name = 1 }]|controller = [{}] => 2 BadKey network 1
network = [{ number = 0 }]|controller = [{}] => 3 BadValue network 1
network = [{ number = 9 }]|controller = [{}] => 3 BadValue network 1
network = [{ number = -1 }]|controller = [{}] => 3 BadValue network 1
network = [{ number = 257 }]|controller = [{}] => 3 BadValue network 1
network = [{ number = "1" }]|controller = [{}] => 3 BadValue network 1
network = [{ number = 1.0 }]|controller = [{}] => 3 BadValue network 1
network = [{ number = 1, fates = 1 }]|controller = [{}] => 3 BadValue network 1
network = [{ number = 1, fates = "" }]|controller = [{}] => 3 BadValue network 1
network = [{ number = 1, fates = "DLAd" }]|controller = [{}] => 3 BadValue network 1
network = [{ number = 2 }, { number = 2 }]|controller = [{}] => 16 BadNetwork network 2
network = [{ number = 2 }, { number = 2 }, {}]|controller = [{}] => 16 BadNetwork network 2
network = [{ number = 2 }, { number = 2, fates = "" }]|controller = [{}] => 3 BadValue network 2
network = [{ number = 8 }]|controller = [{ node = 1, network = 8 }] => taken
net = {}|network = [{ number = 1 }]|controller = [{ node = 1, network = 1 }] => taken"#;

// Controllers and hosts in plants of the networks 1 and 2.
pub const STATIONS: &str = r#"controller = [{ node = 1 }] => 2 BadKey controller 1
controller = [{ network = 1 }] => 2 BadKey controller 1
controller = [{ node = 0, network = "1" }] => 12 BadNode controller 1
controller = [{ node = 1, network = "1" }] => 3 BadValue controller 1
controller = [{ node = 1, network = 1.0 }] => 3 BadValue controller 1
controller = [{ node = 1, network = [1] }] => 3 BadValue controller 1
controller = [{ node = 1, network = 3 }, {}] => 16 BadNetwork controller 1
controller = [{ node = 1, network = 0 }, {}] => 16 BadNetwork controller 1
controller = [{ node = 1, network = -1 }, {}] => 16 BadNetwork controller 1
controller = [{ node = 1, network = 257 }, {}] => 16 BadNetwork controller 1
controller = [{ node = 1, network = 9223372036854775807 }] => 16 BadNetwork controller 1
controller = [{ node = 1, network = 3, coils = 1 }] => 3 BadValue controller 1
controller = [{ node = 1, network = 3, panel = [1] }] => 3 BadValue controller 1
controller = [{ node = 1, network = 3, panel = ["x"] }] => 16 BadNetwork controller 1
controller = [{ node = 1, network = 3, drop = [{}] }] => 16 BadNetwork controller 1
controller = [{ node = 1, network = 1, drop = [{}] }] => 2 BadKey controller 1 drop 1
controller = [{ node = 1, network = 1 }, { node = 1, network = 3 }] => 12 BadNode controller 2
controller = [{ node = 1, network = 1 }, { node = 1, network = 2 }] => 12 BadNode controller 2
controller = [{ node = 1, network = 1 }]|host = [{ node = 2 }] => 2 BadKey host 1
controller = [{ node = 1, network = 1 }]|host = [{ node = 2, network = "2" }] => 3 BadValue host 1
controller = [{ node = 1, network = 1 }]|host = [{ node = 2, network = 3 }] => 16 BadNetwork host 1
controller = [{ node = 1, network = 1 }]|host = [{ node = 1, network = 3 }] => 12 BadNode host 1
controller = [{ node = 1, network = 1 }]|host = [{ node = 1, network = 2 }] => 12 BadNode host 1
controller = [{ node = 1, network = 1 }] => 16 BadNetwork network 2
controller = [{ node = 1, network = 2 }] => 16 BadNetwork network 1
controller = [{ node = 1, network = 1 }]|bridges = ["1 9 2 12"] => 16 BadNetwork network 2
controller = [{ node = 1, network = 1 }]|bridges = ["1 9 2 1"] => 12 BadNode bridge 1
controller = [{ node = 1, network = 1 }, { node = 3, network = 2 }] => taken
controller = [{ node = 1, network = 2 }]|host = [{ node = 2, network = 1 }] => taken"#;

// Hosts of node 2 beside a controller, and bridges, in plants of the networks 1 and 2.
pub const HOSTS: &str = r#"network = 3, requests = 1 }] => 3 BadValue host 1
network = 3, requests = ["x"] }] => 16 BadNetwork host 1
network = 1, requests = ["x"] }]|bridges = ["x"] => 3 BadValue host 1 request 1
network = 1, requests = ["1 2 03"] }]|bridges = ["x"] => 12 BadNode host 1 request 1
network = 1 }]|bridges = ["x"] => 16 BadNetwork bridge 1
network = 1 }]|bridges = ["1 9 2 12"] => 16 BadNetwork network 2"#;

// Bridges of the networks 1 and 2, with the controller of node 1 and the host of node 2.
pub const BRIDGES: &str = r#" => taken
"1 9 2 12" => taken
" 2\t64  1 3 " => taken
"1 9 2 12", "1 10 2 13" => taken
"1 9 2 12", "2 10 1 13" => taken
"" => 16 BadNetwork bridge 1
"1 9 2" => 16 BadNetwork bridge 1
"1 9 2 12 1" => 16 BadNetwork bridge 1
"1 9 2 x" => 16 BadNetwork bridge 1
"1.9.2.12" => 16 BadNetwork bridge 1
"01 9 2 12" => 16 BadNetwork bridge 1
"1 09 2 12" => 16 BadNetwork bridge 1
"1 9 02 12" => 16 BadNetwork bridge 1
"1 9 2 012" => 16 BadNetwork bridge 1
"1 +9 2 12" => 16 BadNetwork bridge 1
"1 0 2 x" => 16 BadNetwork bridge 1
"0 9 2 12" => 16 BadNetwork bridge 1
"1 9 3 12" => 16 BadNetwork bridge 1
"257 9 2 12" => 16 BadNetwork bridge 1
"1 9 18446744073709551618 12" => 16 BadNetwork bridge 1
"1 9 1 12" => 16 BadNetwork bridge 1
"2 9 2 9" => 16 BadNetwork bridge 1
"1 65 3 12" => 16 BadNetwork bridge 1
"1 65 1 12" => 16 BadNetwork bridge 1
"1 0 2 12" => 12 BadNode bridge 1
"1 65 2 12" => 12 BadNode bridge 1
"1 9 2 0" => 12 BadNode bridge 1
"1 9 2 65" => 12 BadNode bridge 1
"1 265 2 12" => 12 BadNode bridge 1
"1 9 2 18446744073709551628" => 12 BadNode bridge 1
"1 1 2 12" => 12 BadNode bridge 1
"1 9 2 1" => 12 BadNode bridge 1
"1 9 2 2" => 12 BadNode bridge 1
"1 9 2 9" => 12 BadNode bridge 1
"1 9 2 12", "1 9 2 13" => 12 BadNode bridge 2
"1 9 2 12", "1 10 2 12" => 12 BadNode bridge 2
"1 9 2 12", "1 12 2 13" => 12 BadNode bridge 2
"1 9 2 12", "1 10 2 9" => 12 BadNode bridge 2
"1 9 2 12", "x", "1 1 2 2" => 16 BadNetwork bridge 2
"1 9 2 12", "1 9 2 13", "x" => 12 BadNode bridge 2"#;

// Requests of the host of node 2, by routes of up to five addresses.
pub const ROUTES: &str = r#""1 1 03", "10000 64.64 08" => taken
"1 1.2.3.4.5 03", " 1\t9.2  aB " => taken
"1 1.2.3.4.5.6 03" => 3 BadValue host 1 request 1
"1 0.0.0.0.0.0 03" => 3 BadValue host 1 request 1
"1 2.2.2.2.2.2 03" => 3 BadValue host 1 request 1
"1 1.2.3.4.5. 03" => 3 BadValue host 1 request 1
"1 . 03" => 3 BadValue host 1 request 1
"1 1. 03" => 3 BadValue host 1 request 1
"1 .1 03" => 3 BadValue host 1 request 1
"1 1..3 03" => 3 BadValue host 1 request 1
"1 1.03 03" => 3 BadValue host 1 request 1
"1 65.00 03" => 3 BadValue host 1 request 1
"1 1.x 03" => 3 BadValue host 1 request 1
"1 1,3 03" => 3 BadValue host 1 request 1
"1 1.+3 03" => 3 BadValue host 1 request 1
"1 1. 3 03" => 3 BadValue host 1 request 1
"1 2.65 0" => 3 BadValue host 1 request 1
"1 0 03" => 12 BadNode host 1 request 1
"1 2 03" => 12 BadNode host 1 request 1
"1 2.9 03" => 12 BadNode host 1 request 1
"1 0.9 03" => 12 BadNode host 1 request 1
"1 9.0 03" => 12 BadNode host 1 request 1
"1 9.5.65 03" => 12 BadNode host 1 request 1
"1 1.2.3.4.257 03" => 12 BadNode host 1 request 1
"1 9.18446744073709551617 03" => 12 BadNode host 1 request 1
"1 9.5 03", "1 2.9 03", "x" => 12 BadNode host 1 request 2"#;

// Versions, and what stands behind them.
pub const VERSIONS: &str = r#"0|name = 1 => 4 BadVersion plant
3|network = [{ number = 1 }]|controller = [{ node = 1, network = 1 }] => 4 BadVersion plant
-2|network = [{ number = 1 }]|controller = [{ node = 1, network = 1 }] => 4 BadVersion plant
"2"|network = [{ number = 1 }]|controller = [{ node = 1, network = 1 }] => 3 BadValue plant
2.0|network = [{ number = 1 }]|controller = [{ node = 1, network = 1 }] => 3 BadValue plant
2|name = 1|network = [{ number = 1 }]|controller = [{ node = 1, network = 1 }] => 2 BadKey plant
1|net = { fates = "LA" }|controller = [{ node = 1 }] => taken
2|network = [{ number = 1, fates = "LA" }]|controller = [{ node = 1, network = 1 }] => taken"#;

// Versions, and what stands behind them, where version 1 is the newest that is read.
pub const NEWER: &str = r#"2|net = 1|controller = [{ node = 1 }] => 4 BadVersion plant
2|name = 1|controller = [{ node = 1 }] => 4 BadVersion plant
2|network = [{ number = 1 }]|controller = [{ node = 1, network = 1 }] => 4 BadVersion plant
3|controller = [{ node = 1 }] => 4 BadVersion plant
1|controller = [{ node = 1 }] => taken"#;
