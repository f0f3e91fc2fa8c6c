//! Controllers 2 and 5, whose power may fail, step by step and turn by turn, with ample memory.
ghost use Rattle.std.specs.Prelude.{◌≡◌, ◌≢◌, ◌∷◌, true, false, [], OnOk, IfOk};
ghost use Rattle.tied_lists.specs.Waits.{Holds};
ghost use Rattle.ring_core.specs.Legal.{IsMember};
ghost use Rattle.port_tests.specs.PowerTests.{CanTurn};

use crate::plans::{net_of, ring_of};
use crate::power_words::text_of;
use crate::turns::{controller_of, reader};
use comm_port::{CommWorker, TurnEnd};
use controller_core::Controller;
use plant_types::{Fate, List, NetPlan, PowerRow};
use ring_core::{NodeStatus, Ring};
use std::alloc::{AllocError, Global};
use std::process::Abort;
use std::test::Fail;

/// A controller with its worker, and whether its node is away.
#[derive(Drop)]
struct Station {
    controller: Controller,
    worker: CommWorker,
    away: bool,
}

/// One step of a controller.
fn step(node: u8, station: &mut Station, ring: &Ring) -> Result<(), AllocError>
    requires { CanTurn node station.old.controller station.old.worker station.old.away ring.now.net
        ring.now.history }
    ensures mine { OnOk result (CanTurn node station.new.controller station.new.worker
        station.new.away ring.now.net ring.now.history) }
{
    let _ = ring;
    station.controller.reserve_scan()?;
    let _ = station.controller.step();
    Ok(())
}

/// Whether a hold left the node away.
const fn is_away(end: TurnEnd) -> bool
    ensures { result ≡ true → end ≡ TurnEnd.Away }
{
    match end {
        TurnEnd::Away => true,
        TurnEnd::Passed | TurnEnd::Left | TurnEnd::Asking => false,
    }
}

/// One hold of a node, while another one looks on.
fn hold(
    node: u8,
    station: &mut Station,
    other_node: u8,
    other: &Station,
    ring: &mut Ring,
) -> Result<TurnEnd, AllocError>
    requires mine { CanTurn node station.old.controller station.old.worker station.old.away
        ring.old.net ring.old.history }
    requires holds { Holds ring.old.net ring.old.history node }
    requires theirs { CanTurn other_node other.now.controller other.now.worker other.now.away
        ring.old.net ring.old.history }
    requires apart { other_node ≢ node }
    ensures mine { OnOk result (CanTurn node station.new.controller station.new.worker
        station.new.away ring.new.net ring.new.history) }
    ensures theirs { OnOk result (CanTurn other_node other.now.controller other.now.worker
        other.now.away ring.new.net ring.new.history) }
{
    let end = station.worker.hold_turn(&mut station.controller, ring)?;
    station.away = is_away(end);
    Ok(end)
}

/// A node that is away tries to come back, while another one looks on; whether it did.
fn come_back(
    node: u8,
    station: &mut Station,
    other_node: u8,
    other: &Station,
    ring: &mut Ring,
) -> Result<bool, AllocError>
    requires mine { CanTurn node station.old.controller station.old.worker station.old.away
        ring.old.net ring.old.history }
    requires away { station.old.away ≡ true }
    requires theirs { CanTurn other_node other.now.controller other.now.worker other.now.away
        ring.old.net ring.old.history }
    requires apart { other_node ≢ node }
    ensures mine { OnOk result (CanTurn node station.new.controller station.new.worker
        station.new.away ring.new.net ring.new.history) }
    ensures theirs { OnOk result (CanTurn other_node other.now.controller other.now.worker
        other.now.away ring.new.net ring.new.history) }
{
    let joined = station.worker.away_turn(&mut station.controller, ring)?;
    station.away = !joined;
    Ok(joined)
}

/// A letter for how a hold ended: passed on, left for good, away (W) or asking (A).
const fn end_letter(end: TurnEnd) -> u8 {
    match end {
        TurnEnd::Passed => b'P',
        TurnEnd::Left => b'L',
        TurnEnd::Away => b'W',
        TurnEnd::Asking => b'A',
    }
}

/// The hold of whoever has the token, and its letter; `-` where nobody has it.
fn hold_next(two: &mut Station, five: &mut Station, ring: &mut Ring) -> Result<u8, AllocError>
    requires two { CanTurn 2 two.old.controller two.old.worker two.old.away ring.old.net
        ring.old.history }
    requires five { CanTurn 5 five.old.controller five.old.worker five.old.away ring.old.net
        ring.old.history }
    ensures two { OnOk result (CanTurn 2 two.new.controller two.new.worker two.new.away ring.new.net
        ring.new.history) }
    ensures five { OnOk result (CanTurn 5 five.new.controller five.new.worker five.new.away
        ring.new.net ring.new.history) }
{
    let holder = ring.holder();
    if holder == 2 && matches!(ring.status(2), NodeStatus::In) {
        return Ok(end_letter(hold(2, two, 5, five, ring)?));
    }
    if holder == 5 && matches!(ring.status(5), NodeStatus::In) {
        return Ok(end_letter(hold(5, five, 2, two, ring)?));
    }
    Ok(b'-')
}

/// A node tries to come back, if it is away: whether it did (J), or is still away (W); `-` where it
/// is not.
fn try_back(
    node: u8,
    station: &mut Station,
    other_node: u8,
    other: &Station,
    ring: &mut Ring,
) -> Result<u8, AllocError>
    requires mine { CanTurn node station.old.controller station.old.worker station.old.away
        ring.old.net ring.old.history }
    requires theirs { CanTurn other_node other.now.controller other.now.worker other.now.away
        ring.old.net ring.old.history }
    requires apart { other_node ≢ node }
    ensures mine { OnOk result (CanTurn node station.new.controller station.new.worker
        station.new.away ring.new.net ring.new.history) }
    ensures theirs { OnOk result (CanTurn other_node other.now.controller other.now.worker
        other.now.away ring.new.net ring.new.history) }
{
    if !station.away {
        return Ok(b'-');
    }
    let joined = come_back(node, station, other_node, other, ring)?;
    Ok(if joined { b'J' } else { b'W' })
}

/// What a letter of a script asks for: a step of controller 2 or 5, the hold of whoever has the
/// token (h), a try of node 2 (a) or 5 (b) to come back. The letter of the answer; `.` for a step.
fn act(letter: u8, two: &mut Station, five: &mut Station, ring: &mut Ring) -> Result<u8, AllocError>
    requires two { CanTurn 2 two.old.controller two.old.worker two.old.away ring.old.net
        ring.old.history }
    requires five { CanTurn 5 five.old.controller five.old.worker five.old.away ring.old.net
        ring.old.history }
    ensures two { OnOk result (CanTurn 2 two.new.controller two.new.worker two.new.away ring.new.net
        ring.new.history) }
    ensures five { OnOk result (CanTurn 5 five.new.controller five.new.worker five.new.away
        ring.new.net ring.new.history) }
{
    match letter {
        b'2' => step(2, two, ring)?,
        b'5' => step(5, five, ring)?,
        b'h' => return hold_next(two, five, ring),
        b'a' => return try_back(2, two, 5, five, ring),
        b'b' => return try_back(5, five, 2, two, ring),
        _ => {}
    }
    Ok(b'.')
}

/// Does what a script asks for; the letters of the answers.
fn follow(
    alloc: Global,
    script: &[u8],
    two: &mut Station,
    five: &mut Station,
    ring: &mut Ring,
) -> Result<Vec<u8>, AllocError>
    requires two { CanTurn 2 two.old.controller two.old.worker two.old.away ring.old.net
        ring.old.history }
    requires five { CanTurn 5 five.old.controller five.old.worker five.old.away ring.old.net
        ring.old.history }
{
    let mut answers = Vec::new(alloc);
    for letter in script {
        let answer = act(*letter, two, five, ring)?;
        answers.push(answer)?;
    }
    Ok(answers)
}

/// What a script is answered, and what the lists then tell.
#[derive(Drop)]
struct Told {
    answers: Vec<u8>,
    text: Vec<u8>,
}

/// Follows a script; what is told.
fn told_by(
    alloc: Global,
    script: &[u8],
    two: &mut Station,
    five: &mut Station,
    ring: &mut Ring,
) -> Result<Told, AllocError>
    requires two { CanTurn 2 two.old.controller two.old.worker two.old.away ring.old.net
        ring.old.history }
    requires five { CanTurn 5 five.old.controller five.old.worker five.old.away ring.old.net
        ring.old.history }
{
    let answers = follow(alloc, script, two, five, ring)?;
    let (two, five) = (two.controller.history(), five.controller.history());
    let text = text_of(alloc, ring.history(), two, five)?;
    Ok(Told { answers, text })
}

/// The station of a node of the net; its controller has not begun.
fn station_of(
    alloc: Global,
    node: u8,
    controller: Controller,
    net: &NetPlan,
) -> Result<Station, AllocError>
    requires node { controller.fixed.plan.node ≡ node }
    requires history { controller.history ≡ [] }
    requires members { net.now.members ≡ 2 ∷ 5 ∷ [] }
    requires alone { net.now.bridges ≡ [] }
    requires member { IsMember net.now node }
    requires answer { net.now.answer ≡ 2 }
    ensures { IfOk result (λ station. CanTurn node station.controller station.worker station.away
        net.now []) }
{
    let worker = CommWorker::new(alloc, node, true)?;
    Ok(Station {
        controller,
        worker,
        away: false,
    })
}

/// Follows a script on a new ring, with stations that have not begun; what is told.
fn told_on(
    rt: &impl Abort,
    alloc: Global,
    net: &NetPlan,
    two: &mut Station,
    five: &mut Station,
    script: &[u8],
) -> Result<Told, AllocError>
    requires two { CanTurn 2 two.old.controller two.old.worker two.old.away net.now [] }
    requires five { CanTurn 5 five.old.controller five.old.worker five.old.away net.now [] }
{
    let mut ring = ring_of(rt, alloc, net)?;
    told_by(alloc, script, two, five, &mut ring)
}

/// The station of node 2, which reads node 5. It has not begun.
fn reading_station(alloc: Global, net: &NetPlan, power: &[PowerRow]) -> Result<Station, Fail>
    requires members { net.now.members ≡ 2 ∷ 5 ∷ [] }
    requires alone { net.now.bridges ≡ [] }
    requires answer { net.now.answer ≡ 2 }
    ensures { IfOk result (λ station. CanTurn 2 station.controller station.worker station.away
        net.now []) }
{
    let controller = reader(alloc, power)?;
    Ok(station_of(alloc, 2, controller, net)?)
}

/// The station of node 5, which asks nothing. It has not begun.
fn silent_station(alloc: Global, net: &NetPlan, power: &[PowerRow]) -> Result<Station, Fail>
    requires members { net.now.members ≡ 2 ∷ 5 ∷ [] }
    requires alone { net.now.bridges ≡ [] }
    requires answer { net.now.answer ≡ 2 }
    ensures { IfOk result (λ station. CanTurn 5 station.controller station.worker station.away
        net.now []) }
{
    let controller = controller_of(alloc, 5, List::new(alloc), power)?;
    Ok(station_of(alloc, 5, controller, net)?)
}

/// Follows a script on a new ring, where power fails so at node 5; what is told.
fn told_with(
    rt: &impl Abort,
    alloc: Global,
    net: &NetPlan,
    two: &mut Station,
    power: &[PowerRow],
    script: &[u8],
) -> Result<Told, Fail>
    requires members { net.now.members ≡ 2 ∷ 5 ∷ [] }
    requires alone { net.now.bridges ≡ [] }
    requires answer { net.now.answer ≡ 2 }
    requires two { CanTurn 2 two.old.controller two.old.worker two.old.away net.now [] }
{
    let mut five = silent_station(alloc, net, power)?;
    Ok(told_on(rt, alloc, net, two, &mut five, script)?)
}

/// Follows a script on a new ring, where power fails so at nodes 2 and 5; what is told.
fn tell(
    rt: &impl Abort,
    alloc: Global,
    net: &NetPlan,
    power: (&[PowerRow], &[PowerRow]),
    script: &[u8],
) -> Result<Told, Fail>
    requires members { net.now.members ≡ 2 ∷ 5 ∷ [] }
    requires alone { net.now.bridges ≡ [] }
    requires answer { net.now.answer ≡ 2 }
{
    let mut two = reading_station(alloc, net, power.0)?;
    told_with(rt, alloc, net, &mut two, power.1, script)
}

/// Whether a script is answered so where power fails so at nodes 2 and 5, and the lists tell this.
fn tells(
    rt: &impl Abort,
    alloc: Global,
    power: (&[PowerRow], &[PowerRow]),
    script: &[u8],
    told: (&[u8], &[u8]),
) -> Result<bool, Fail> {
    let net = net_of(alloc, &[2, 5], &[Fate::D], 2, 20)?;
    let now = tell(rt, alloc, &net, power, script)?;
    Ok(now.answers.as_slice() == told.0 && now.text.as_slice() == told.1)
}

/// A failure as a scan begins, with so many dark scans.
const fn at_begin(scan: u32, dark: u32) -> PowerRow {
    PowerRow { scan, row: 0, dark }
}

#[test]
fn a_failure_before_anything(rt: HostRuntime) -> Result<(), Fail> {
    let alloc = rt.alloc();
    let power: (&[PowerRow], &[PowerRow]) = (&[at_begin(1, 0)], &[]);
    // No power until the second scan: the node comes back after a Pass of the other.
    assert!(rt;
        tells(
            &rt,
            alloc,
            power,
            b"22ha2ahh",
            (b"..WW.JPP", b"2D2J5n2n|BXB|")
        )?
    );
    // Power is back before the node notices that it failed.
    assert!(rt; tells(&rt, alloc, power, b"222hhh", (b"...APP", b"2D2J5n2n|BXB|"))?);
    Ok(())
}

#[test]
fn the_first_node_back_on_an_empty_ring_holds_the_token(rt: HostRuntime) -> Result<(), Fail> {
    let alloc = rt.alloc();
    let power: (&[PowerRow], &[PowerRow]) = (&[at_begin(1, 0)], &[at_begin(1, 3)]);
    let told: (&[u8], &[u8]) = (b"..W..W-.JPP", b"2D5D2J2n2n|BXB|BX");
    assert!(rt; tells(&rt, alloc, power, b"22h55hh2ahh", told)?);
    Ok(())
}

#[test]
fn a_reply_that_came_is_lost(rt: HostRuntime) -> Result<(), Fail> {
    let alloc = rt.alloc();
    let power: (&[PowerRow], &[PowerRow]) = (&[at_begin(2, 0)], &[]);
    // The call ends as one that nobody answers, though its target did it, once.
    let told: (&[u8], &[u8]) = (b"...PP..WP.JPP", b"2P2A2n5T5p5A5n2D2G5n2J5n2n|BSECBXFB|P");
    assert!(rt; tells(&rt, alloc, power, b"222hh22hh2ahh", told)?);
    Ok(())
}

#[test]
fn a_request_in_the_inbox_is_lost(rt: HostRuntime) -> Result<(), Fail> {
    let alloc = rt.alloc();
    let power: (&[PowerRow], &[PowerRow]) = (&[], &[at_begin(1, 0)]);
    // Its target is still away when the call has waited for two Passes.
    let told: (&[u8], &[u8]) = (b"...P..WPP", b"2P2A2n5D2n2G2n|BSECF|BX");
    assert!(rt; tells(&rt, alloc, power, b"222h55hhh", told)?);
    // Its target has come back by then.
    let told: (&[u8], &[u8]) = (b"...P...APPP", b"2P2A2n5D5J2n5n2g2n|BSECf|BXB");
    assert!(rt; tells(&rt, alloc, power, b"222h555hhhh", told)?);
    Ok(())
}

#[test]
fn a_call_that_is_out_is_given_up(rt: HostRuntime) -> Result<(), Fail> {
    let alloc = rt.alloc();
    let power: (&[PowerRow], &[PowerRow]) = (&[at_begin(2, 0)], &[at_begin(1, 0)]);
    let told: (&[u8], &[u8]) = (b"...P..W..W", b"2P2A2n5D2D2G|BSECBXF|BX");
    assert!(rt; tells(&rt, alloc, power, b"222h55h22h", told)?);
    Ok(())
}

#[test]
fn a_call_that_was_not_made_yet_is_made_after_the_return(rt: HostRuntime) -> Result<(), Fail> {
    let alloc = rt.alloc();
    let row = PowerRow {
        scan: 1,
        row: 1,
        dark: 0,
    };
    let power: (&[PowerRow], &[PowerRow]) = (&[row], &[]);
    let told: (&[u8], &[u8]) = (b"...W.JPPPP", b"2D2J5n2P2A2n5T5p5A5n2T2n|BSXBCG|P");
    assert!(rt; tells(&rt, alloc, power, b"222h2ahhhh", told)?);
    Ok(())
}

#[test]
fn a_failure_while_away_is_noticed_at_the_next_hold(rt: HostRuntime) -> Result<(), Fail> {
    let alloc = rt.alloc();
    let power: (&[PowerRow], &[PowerRow]) = (&[at_begin(1, 0), at_begin(2, 0)], &[]);
    let told: (&[u8], &[u8]) = (b"..W...JPAPP", b"2D2J5n2E2J5n2n|BXBXB|");
    assert!(rt; tells(&rt, alloc, power, b"22h222ahhhh", told)?);
    Ok(())
}

#[test]
fn no_power_comes_back_where_the_scans_are_gone(rt: HostRuntime) -> Result<(), Fail> {
    let alloc = rt.alloc();
    let power: (&[PowerRow], &[PowerRow]) = (&[at_begin(1, 3)], &[]);
    let told: (&[u8], &[u8]) = (b"..W...W", b"2D|BXKKK|");
    assert!(rt; tells(&rt, alloc, power, b"22h222a", told)?);
    Ok(())
}

#[test]
fn a_node_that_came_back_is_done_behind_its_last_scan(rt: HostRuntime) -> Result<(), Fail> {
    let alloc = rt.alloc();
    let power: (&[PowerRow], &[PowerRow]) = (&[], &[at_begin(1, 0)]);
    let told: (&[u8], &[u8]) = (b"P..W.JPP........PP", b"2n5D5J2n5n2n5d||BXBSEBSEBSE");
    assert!(rt; tells(&rt, alloc, power, b"h55h5bhh55555555hh", told)?);
    Ok(())
}
