// Texts of networks, and where each is refused. The tests of a piece go in the order of these
// tables.

// What does not read: a position, a name, the number of operands, a constant for a reference.
pub const BAD_CELLS: &str = r#"1,1 => 1 cell 1
1,1  => 1 cell 1
0,1 H => 1 cell 1
8,1 H => 1 cell 1
1,0 H => 1 cell 1
1,12 H => 1 cell 1
01,1 H => 1 cell 1
1,01 H => 1 cell 1
1;1 H => 1 cell 1
1, 1 H => 1 cell 1
1,1,1 H => 1 cell 1
+1,1 H => 1 cell 1
1,1 h => 1 cell 1
1,1 HH => 1 cell 1
1,1 TON 40001 => 1 cell 1
1,1 H H => 1 cell 1
1,1 NO => 1 cell 1
1,1 NO 00001 00002 => 1 cell 1
1,1 NO 0001 => 1 cell 1
1,1 NO 1 => 1 cell 1
1,1 NO 000001 => 1 cell 1
7,1 V => 1 cell 1
1,1 V 1 => 1 cell 1
1,1 ADD 1 40001 => 1 cell 1
1,1 ADD 1 1 40001 1 => 1 cell 1
1,1 ADD 007 1 40001 => 1 cell 1
1,1 ADD 1 1 1 => 1 cell 1
1,1 T1.0 10 => 1 cell 1
1,1 T1.0 10 1 => 1 cell 1
1,1 BLKM 40001 40002 40003 => 1 cell 1
1,1 BLKM 1 40002 1 => 1 cell 1
1,1 AND 1 40002 1 => 1 cell 1
1,1 R>T 40001 40002 01 => 1 cell 1
8,1 MSTR x => 1 cell 1
1,1 MSTR 40001 40010 => 1 cell 1
1,1 H;\r => 1 cell 2
1,1 H\r;1,2 H => 1 cell 1
1,1\u00a0H => 1 cell 1
;; 1,1 H;\t;\n; 8,1 H => 1 cell 2
8,1 R>T 40001 40010 0 => 1 cell 1
1,1 H", "1,1 H; 1,2 H; 1,3 x => 2 cell 3"#;

// Constants outside their ranges.
pub const BAD_VALUES: &str = r#"1,1 R>T 40001 40010 0 => 1 cell 1
1,1 R>T 40001 40010 256 => 1 cell 1
1,1 SRCH 40001 40010 1000 => 1 cell 1
1,1 AND 40001 40010 0 => 1 cell 1
1,1 AND 40001 40010 101 => 1 cell 1
1,1 MBIT 1 40001 101 => 1 cell 1
1,1 MSTR 30001 40010 101 => 1 cell 1
1,1 R>T 00001 20001 256 => 1 cell 1
1,1 H; 1,1 BLKM 40001 40010 0 => 1 cell 2"#;

// What is no reference, of a wrong kind, or not wholly in the map.
pub const BAD_REFS: &str = r#"1,1 MSTR 40093 40010 1 => 1 cell 1
1,1 MSTR 40092 40010 92 => 1 cell 1
1,1 H; 1,2 NO 00017; 1,3 RET => 1 cell 2
1,1 NO 00000 => 1 cell 1
1,1 NO 00017 => 1 cell 1
1,1 NO 09985 => 1 cell 1
1,1 NO 20001 => 1 cell 1
1,1 NO 30001 => 1 cell 1
1,1 NC 40001 => 1 cell 1
1,1 NC 10017 => 1 cell 1
1,1 CO 10001 => 1 cell 1
1,1 CO 00017 => 1 cell 1
1,1 CL 10001 => 1 cell 1
1,1 ADD 12345 1 40001 => 1 cell 1
1,1 ADD 1 1 30001 => 1 cell 1
1,1 ADD 30011 1 40001 => 1 cell 1
1,1 SUB 1 1 40101 => 1 cell 1
1,1 MUL 1 1 40100 => 1 cell 1
1,1 DIV 40100 1 40001 => 1 cell 1
1,1 DIV 1 1 40100 => 1 cell 1
1,1 T0.1 00001 40001 => 1 cell 1
1,1 UCTR 1 30001 => 1 cell 1
1,1 R>T 40001 40095 6 => 1 cell 1
1,1 T>R 40095 40001 7 => 1 cell 1
1,1 T>R 40001 40100 1 => 1 cell 1
1,1 T>T 40001 40095 6 => 1 cell 1
1,1 BLKM 40001 40095 7 => 1 cell 1
1,1 FIN 40001 40095 6 => 1 cell 1
1,1 FOUT 40095 40001 6 => 1 cell 1
1,1 FOUT 30001 40001 1 => 1 cell 1
1,1 SRCH 40001 40100 1 => 1 cell 1
1,1 XOR 40001 40095 7 => 1 cell 1
1,1 CMPR 40001 40095 6 => 1 cell 1
1,1 SENS 1 30005 7 => 1 cell 1
1,1 MBIT 40001 30001 1 => 1 cell 1
1,1 H; 1,1 NO 00017 => 1 cell 2
1,1 H; 7,1 ADD 1 1 40101 => 1 cell 2"#;

// Places that are taken, below row 7 or right of a coil.
pub const BAD_SHAPES: &str = r#"1,1 V; 1,1 V => 1 cell 2
1,1 H; 1,1 NO 00001 => 1 cell 2
6,1 ADD 1 1 40001 => 1 cell 1
7,1 T.01 1 40001 => 1 cell 1
1,1 ADD 1 1 40001; 2,1 H => 1 cell 2
3,1 H; 1,1 ADD 1 1 40001 => 1 cell 2
1,1 T1.0 1 40001; 2,1 H => 1 cell 2
1,1 CO 00001; 1,2 H => 1 cell 2
1,2 H; 1,1 CO 00001 => 1 cell 2
3,1 CL 00001; 1,2 ADD 1 1 40001 => 1 cell 2
1,2 ADD 1 1 40001; 3,1 CL 00001 => 1 cell 2
1,1 CO 00001; 1,1 CO 00001 => 1 cell 2"#;

// Coils that are driven already.
pub const COILS_TWICE: &str = r#"1,1 NO 10001; 1,2 CO 00001; 2,1 NO 10002; 2,2 CO 00001 => 1 cell 4
1,1 CO 00001; 2,1 CL 00001 => 1 cell 2
1,1 CL 00001; 2,1 CL 00001 => 1 cell 2
1,1 CL 00002", "1,1 V; 1,1 CO 00002 => 2 cell 2"#;

// Networks that are taken: blanks, line ends and empty pieces wherever they may stand, and what
// just fits.
pub const TAKEN: &str = r#" => taken
", "1,1 H => taken
 ;; \t ; 1,1\t \tNO  00016 ; => taken
1,1 H\n1,2 CO 00001 => taken
1,1 H\r\n1,2 CO 00001\r\n => taken
7,11 CO 00001 => taken
1,1 CO 00001; 2,2 CL 00002 => taken
1,1 NO 10016; 1,1 V => taken
6,11 V; 6,10 V => taken
5,1 ADD 1 30010 40100; 4,1 H; 6,2 T1.0 0 40100 => taken
1,1 ADD 1 1 40001; 4,1 CO 00001; 3,2 H => taken
1,1 MUL 1 1 40099 => taken
1,1 DIV 40099 1 40001 => taken
1,1 DIV 9999 40100 40001 => taken
1,1 R>T 40100 40095 5 => taken
1,1 T>R 30010 40099 1 => taken
1,1 T>T 40095 40095 5 => taken
1,1 BLKM 40001 40094 7 => taken
1,1 FOUT 40095 40100 5 => taken
1,1 SRCH 40001 40099 100 => taken
1,1 CMPR 40001 40051 49 => taken
1,1 AND 40001 40001 100 => taken
1,1 MSTR 40092 40001 100 => taken
1,1 MBIT 9999 40001 100; 1,2 SENS 30010 30001 10 => taken"#;
