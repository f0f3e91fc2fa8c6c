//! How a cell stands among all cells of its controller.
ghost use Rattle.std.specs.Prelude.{◌≡◌, ◌-◌, nat_lt};
ghost use Rattle.plant_types.specs.Network.{driven_by};
ghost use Rattle.plant_types.specs.Checks.{is_same};
ghost use Rattle.plant_types.specs.Reference.{rank_of};
ghost use Rattle.plant_types.specs.FirstFault.{first_failed, is_label};
ghost use Rattle.plant_types.specs.Standing.{cells_of_networks, cells_of_segments, cells_before};
ghost use Rattle.plant_types.specs.Standing.{drives, coils_in, is_driven, is_label_of};
ghost use Rattle.plant_types.specs.Standing.{repeats_label, is_message, message_count};
ghost use Rattle.plant_types.specs.Standing.{message_limit, claims, is_claimed};
ghost use Rattle.plant_types.specs.Standing.{is_claimed_in_networks, is_claimed_in_segments};
ghost use Rattle.plant_types.specs.Standing.{standing_of, standing_tests};

use crate::element::Element;
use crate::fault::PlantFault;
use crate::grid::driven_by;
use crate::network::{Cell, Network, Segment};
use crate::reference::{Ref, RefKind};
use std::marker::Model;

/// The most MSTR blocks of a controller.
pub const MESSAGE_LIMIT: usize = 64;

/// How a cell stands behind all cells of its controller before it.
#[derive(Clone, Copy, Debug, PartialEq, Eq)]
pub struct Standing {
    /// A LAB outside the last segment.
    pub is_stray_label: bool,
    /// A LAB whose number an earlier one has.
    pub repeats_label: bool,
    /// A coil that an earlier cell drives.
    pub drives_again: bool,
    /// An MSTR behind as many as a controller can have.
    pub exceeds_messages: bool,
}

impl Standing {
    /// The first test that it does not pass.
    pub fn check(self) -> Result<(), PlantFault>
        ensures { result ≡ first_failed (standing_tests self) }
    {
        if self.is_stray_label || self.repeats_label {
            return Err(PlantFault::BadShape);
        }
        if self.drives_again {
            return Err(PlantFault::CoilTwice);
        }
        if self.exceeds_messages {
            return Err(PlantFault::TooLarge);
        }
        Ok(())
    }
}

impl RefKind {
    fn rank(self) -> u8
        ensures { result ≡ rank_of self }
    {
        match self {
            RefKind::Coil => 0,
            RefKind::Input => 1,
            RefKind::InputRegister => 2,
            RefKind::Register => 3,
        }
    }
}

fn is_same(one: Ref, other: Ref) -> bool
    ensures { result ≡ is_same one other }
{
    one.kind.rank() == other.kind.rank() && one.number == other.number
}

/// Whether an element is a LAB.
pub fn is_label(element: Element) -> bool
    ensures { result ≡ is_label element }
{
    matches!(element, Element::Label(_))
}

/// Whether an element is an MSTR.
pub fn is_message(element: Element) -> bool
    ensures { result ≡ is_message element }
{
    matches!(element, Element::Mstr { .. })
}

fn drives(coil: Ref, element: Element) -> bool
    ensures { result ≡ drives coil element }
{
    match driven_by(element) {
        Some(other) => is_same(coil, other),
        None => false,
    }
}

/// Whether an element is the LAB of a number.
pub fn is_label_of(number: u16, element: Element) -> bool
    ensures { result ≡ is_label_of number element }
{
    match element {
        Element::Label(other) => number == other,
        _ => false,
    }
}

/// What one cell of a controller alone can have.
#[derive(Clone, Copy, Debug, PartialEq, Eq)]
pub(crate) enum Claim {
    /// The number of a LAB.
    Label(u16),
    /// A coil to drive.
    Coil(Ref),
}

impl Claim {
    fn is_of(self, element: Element) -> bool
        ensures { result ≡ claims self element }
    {
        match self {
            Claim::Label(number) => is_label_of(number, element),
            Claim::Coil(coil) => drives(coil, element),
        }
    }

    fn is_in_cells(self, cells: &[Cell]) -> bool
        ensures { result ≡ is_claimed cells.now self }
    {
        cells.iter().any(|cell| self.is_of(cell.element))
    }

    fn is_in_networks(self, networks: &[Network]) -> bool
        ensures { result ≡ is_claimed_in_networks networks.now self }
    {
        networks
            .iter()
            .any(|network| self.is_in_cells(network.cells.as_slice()))
    }

    fn is_in_segments(self, segments: &[Segment]) -> bool
        ensures { result ≡ is_claimed_in_segments segments.now self }
    {
        segments
            .iter()
            .any(|segment| self.is_in_networks(segment.networks.as_slice()))
    }

    fn is_before(self, segments: &[Segment], networks: &[Network]) -> bool
        ensures { result ≡ is_claimed (cells_before segments.now networks.now) self }
    {
        self.is_in_segments(segments) || self.is_in_networks(networks)
    }
}

/// How many of a number of messages are left behind those of cells.
fn left_behind_cells(cells: &[Cell], mut left: usize) -> usize
    ensures { result ≡ left - message_count cells.now }
{
    for cell in cells {
        if is_message(cell.element) {
            left = left.saturating_sub(1);
        }
    }
    left
}

/// How many of a number of messages are left behind those of networks.
fn left_behind_networks(networks: &[Network], mut left: usize) -> usize
    ensures { result ≡ left - message_count (cells_of_networks networks.now) }
{
    for network in networks {
        left = left_behind_cells(network.cells.as_slice(), left);
    }
    left
}

/// How many of a number of messages are left behind those of segments.
fn left_behind_segments(segments: &[Segment], mut left: usize) -> usize
    ensures { result ≡ left - message_count (cells_of_segments segments.now) }
{
    for segment in segments {
        left = left_behind_networks(segment.networks.as_slice(), left);
    }
    left
}

/// The cells of a controller before a cell: those of the segments before its own, of the networks
/// before it in its own segment, and of its own network.
#[derive(Drop)]
pub(crate) struct Earlier<'a> {
    pub(crate) segments: &'a [Segment],
    pub(crate) networks: &'a [Network],
    pub(crate) cells: &'a [Cell],
}

impl<'a> Model for Earlier<'a> {
    ghost use Rattle.std.specs.Prelude.{List, ◌++◌};
    ghost use Rattle.plant_types.specs.declared.network.Cell.{Cell};
    ghost use Rattle.plant_types.specs.Standing.{cells_before};

    ghost Value = { List Cell };

    ghost view = { λ e. cells_before e.segments.now e.networks.now ++ e.cells.now };
}

impl<'a> Earlier<'a> {
    fn has_claim(&self, claim: Claim) -> bool
        ensures { result ≡ is_claimed self.now claim }
    {
        claim.is_before(self.segments, self.networks) || claim.is_in_cells(self.cells)
    }

    fn has_label(&self, element: Element) -> bool
        ensures { result ≡ repeats_label self.now element }
    {
        match element {
            Element::Label(number) => self.has_claim(Claim::Label(number)),
            _ => false,
        }
    }

    fn has_coil(&self, element: Element) -> bool
        ensures { result ≡ is_driven (coils_in self.now) (driven_by element) }
    {
        match driven_by(element) {
            Some(coil) => self.has_claim(Claim::Coil(coil)),
            None => false,
        }
    }

    /// Whether there is room for one more message.
    fn has_message_room(&self) -> bool
        ensures { result ≡ nat_lt (message_count self.now) message_limit }
    {
        let left = left_behind_segments(self.segments, MESSAGE_LIMIT);
        let left = left_behind_networks(self.networks, left);
        left_behind_cells(self.cells, left) > 0
    }

    /// How an element stands behind these cells.
    pub(crate) fn standing(&self, is_last: bool, element: Element) -> Standing
        ensures { result ≡ standing_of is_last self.now element }
    {
        Standing {
            is_stray_label: is_label(element) && !is_last,
            repeats_label: self.has_label(element),
            drives_again: self.has_coil(element),
            exceeds_messages: is_message(element) && !self.has_message_room(),
        }
    }
}
