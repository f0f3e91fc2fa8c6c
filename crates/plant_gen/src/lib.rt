//! Makes plants from numbers, so that anyone can make a load of any size. This project's own.
#![tactic(auto)]

ghost use Rattle.std.specs.Prelude.{◌≡◌, ◌++◌, ◌∷◌, [], ◌≤◌, ◌<◌, IfOk, OnOk, Some, map};
ghost use Rattle.std.specs.Prelude.{string_bytes};
ghost use Rattle.std.specs.List.{range_with_len};
ghost use Rattle.plant_types.specs.Reference.{coil_at};
ghost use Rattle.plant_gen.specs.Text.{all_controller_lines, coil_networks};
ghost use Rattle.plant_gen.specs.Text.{contacts_network, contacts_of, controller_lines};
ghost use Rattle.plant_gen.specs.Text.{controller_count, input_at, IsPlantNumber, message_networks};
ghost use Rattle.plant_gen.specs.Text.{network_line, next_node, plant_text, script_line};
ghost use Rattle.plant_gen.specs.Text.{script_word, segment_lines, table_lines, lines_text};
ghost use Rattle.plant_gen.specs.Text.{word_text};

use plant_types::{Ref, RefKind};
use std::alloc::{AllocError, Global};
use std::fmt;
use std::fmt::Write;

/// A word of a script, as it is written.
#[derive(Clone, Copy)]
struct ScriptWord(u16);

/// Four hexadecimal digits, with capital letters.
impl fmt::Display for ScriptWord {
    ghost output = { λ word. Some (word_text word.0) };

    fn fmt<W: fmt::Write>(&self, f: &mut fmt::Formatter<W>) -> fmt::Result {
        let first = self.0 / 4096;
        let second = self.0 / 256 % 16;
        let third = self.0 / 16 % 16;
        let fourth = self.0 % 16;
        write!(f, "{first:X}{second:X}{third:X}{fourth:X}")
    }
}

/// A controller of a plant that is made from a number.
#[derive(Clone, Copy)]
struct Made {
    number: u32,
    node: u32,
    ghost number_in_range: { number ≤ 9999 },
    ghost node_in_range: { node ≤ 16 },
}

impl Made {
    fn script_word(self, place: u32) -> ScriptWord
        requires { place ≤ 8 }
        ensures { result.0 ≡ script_word self.number self.node place }
    {
        ScriptWord(((self.number * 7919 * place + self.node * 257) % 65536) as u16)
    }

    fn next_node(self) -> u32
        ensures { result ≡ next_node self.number self.node }
    {
        self.node % controllers_of(self.number) + 1
    }
}

fn controllers_of(number: u32) -> u32
    ensures { result ≡ controller_count number }
{
    2 + number % 15
}

fn contacts_of(number: u32) -> u32
    ensures { result ≡ contacts_of number }
{
    1 + number % 200
}

fn input_at(place: u32) -> Ref
    ensures { result ≡ input_at place }
{
    Ref {
        kind: RefKind::Input,
        number: (1 + place % 16) as u16,
    }
}

fn coil_at(number: u32) -> Ref
    requires { number ≤ 200 }
    ensures { result ≡ coil_at number }
{
    Ref {
        kind: RefKind::Coil,
        number: number as u16,
    }
}

/// The lines of a controller between its node and its script.
const TABLE: &str = r#"coils = 256
inputs = 16
registers = 60
orders = ["1 - 1 1"]
[[controller.drop]]
number = 1
modules = ["in 10001", "out 00001"]
"#;

fn push_table(text: &mut String, node: u32) -> Result<(), AllocError>
    ensures { OnOk result (string_bytes text.new ≡ string_bytes text.old
        ++ lines_text (table_lines node)) }
{
    write!(text, "[[controller]]\nnode = {node}\n")?;
    text.push_str(TABLE)?;
    Ok(())
}

fn push_script(text: &mut String, made: Made) -> Result<(), AllocError>
    ensures { OnOk result (string_bytes text.new ≡ string_bytes text.old
        ++ lines_text (script_line made.number made.node ∷ [])) }
{
    let first = made.script_word(1);
    write!(text, "script = [\"{first}\"")?;
    for place in 2..9 {
        let word = made.script_word(place);
        write!(text, ", \"{word}\"")?;
    }
    text.push_str("]\n")?;
    Ok(())
}

fn push_message(text: &mut String, made: Made) -> Result<(), AllocError>
    ensures { OnOk result (string_bytes text.new ≡ string_bytes text.old
        ++ lines_text (map network_line (message_networks made.number made.node))) }
{
    let to = made.next_node();
    text.push_str("\"1,1 ADD 2 0 40001; 4,1 ADD 1 0 40003\",\n")?;
    write!(text, "\"1,1 ADD 1 0 40004; 4,1 ADD {to} 0 40005\",\n")?;
    text.push_str("\"1,1 H; 1,2 MSTR 40001 40011 1\",\n")
}

fn push_contacts(text: &mut String, made: Made, coil: u32) -> Result<(), AllocError>
    requires { coil ≤ 200 }
    ensures { OnOk result (string_bytes text.new ≡ string_bytes text.old
        ++ lines_text (network_line (contacts_network made.number made.node coil) ∷ [])) }
{
    let opens = input_at(coil + made.number);
    let closes = input_at(coil + made.node);
    let at = coil_at(coil);
    write!(
        text,
        "\"1,1 NO {opens}; 2,1 NO {at}; 1,1 V; 1,2 NC {closes}; 1,3 CO {at}\",\n"
    )
}

fn push_coils(text: &mut String, made: Made) -> Result<(), AllocError>
    ensures { OnOk result (string_bytes text.new ≡ string_bytes text.old
        ++ lines_text (map network_line (coil_networks made.number made.node))) }
{
    for coil in 1..=contacts_of(made.number) {
        push_contacts(text, made, coil)?;
    }
    Ok(())
}

fn push_segment(text: &mut String, made: Made) -> Result<(), AllocError>
    ensures { OnOk result (string_bytes text.new ≡ string_bytes text.old
        ++ lines_text (segment_lines made.number made.node)) }
{
    text.push_str("[[controller.segment]]\nnetworks = [\n")?;
    push_message(text, made)?;
    push_coils(text, made)?;
    text.push_str("]\n")?;
    Ok(())
}

fn push_controller(text: &mut String, made: Made) -> Result<(), AllocError>
    ensures { OnOk result (string_bytes text.new ≡ string_bytes text.old
        ++ lines_text (controller_lines made.number made.node)) }
{
    push_table(text, made.node)?;
    push_script(text, made)?;
    push_segment(text, made)
}

fn push_controllers(text: &mut String, number: u32) -> Result<(), AllocError>
    requires { IsPlantNumber number }
    ensures { OnOk result (string_bytes text.new ≡ string_bytes text.old
        ++ lines_text (all_controller_lines number)) }
{
    for node in 1..=controllers_of(number) {
        push_controller(text, Made { number, node })?;
    }
    Ok(())
}

/// The text of the plant file that a number from 1 to 9999 stands for: 2 to 16 controllers, each
/// with a drop, a message to the next one, and 1 to 200 networks of contacts.
pub fn plant_from(alloc: Global, number: u32) -> Result<Vec<u8>, AllocError>
    requires { IsPlantNumber number }
    ensures { IfOk result (λ text. text.items ≡ plant_text number) }
{
    let mut text = String::new(alloc);
    text.push_str("version = 1\n")?;
    push_controllers(&mut text, number)?;
    Ok(text.into_bytes())
}
