//! Changes of the database, and how they are taken back.
ghost use Rattle.std.specs.Prelude.{◌≡◌, ◌<◌, ◌≤◌, true, false, if◌then◌else◌, is_some, nat_le, length, MatchResult};
ghost use Rattle.std.specs.Option.{option_map_or};
ghost use Rattle.tick_set.specs.declared.spans.TheConstants.{LAST_TICK};
ghost use Rattle.tick_set.specs.Ticks.{IsTick};
ghost use Rattle.geometry.specs.Polygon.{is_convex};
ghost use Rattle.geometry.specs.Region.{region_number};
ghost use Rattle.geometry.specs.declared.limits.TheConstants.{LEAST_VERTICES, VERTEX_LIMIT};
ghost use Rattle.command_text.specs.declared.fault.CommandFault.TheVariants as faults;
ghost use Rattle.command_text.specs.declared.refusal.Refusal.TheVariants as refusals;
ghost use Rattle.polygon.specs.declared.named.TheConstants.{REGION_LIMIT};
ghost use Rattle.command_text.specs.Tree as Tree;
ghost use Rattle.command_text.specs.Tree.{command_view};
ghost use Rattle.line_meaning.specs.Fault.{refusal_by_store};
ghost use Rattle.command_text.specs.Journal.{is_kept};
ghost use Rattle.line_meaning.specs.Role.{is_on_queries};
ghost use Rattle.database.specs.Attempt.{Attempts, IsFlat};
ghost use Rattle.database.specs.Keeping.{IsTimely};
ghost use Rattle.database.specs.Ready.{IsReadyCommand};
ghost use Rattle.database.specs.Taking.{IsLast, without};

use crate::database::Database;
use crate::objects;
use command_text::{Command, CommandFault, Refusal};
use fixed_point::{Point, Word};
use object_store::{Done, StoreFault};
use polygon::{Polygon, PolygonFault, REGION_LIMIT, Regions};
use std::alloc::Global;
use tick_set::LAST_TICK;

/// What a command changed.
#[derive(Drop)]
pub enum Change {
    /// A class was made.
    Class,
    /// A region was made.
    Region,
    /// An object was written.
    Object(Done),
    /// The clock moved by so many ticks.
    Clock(u32),
}

/// What a fault of the store says of a command.
pub(crate) fn fault_by(fault: StoreFault) -> CommandFault
    ensures { result ≡ option_map_or faults.Refused (refusal_by_store fault) faults.NoMemory }
{
    match fault {
        StoreFault::UnknownName => CommandFault::Refused(Refusal::UnknownName),
        StoreFault::NameTaken => CommandFault::Refused(Refusal::NameTaken),
        StoreFault::WrongKind => CommandFault::Refused(Refusal::WrongKind),
        StoreFault::Presence => CommandFault::Refused(Refusal::Presence),
        StoreFault::ClassFull => CommandFault::Refused(Refusal::ClassFull),
        StoreFault::StoreFull => CommandFault::Refused(Refusal::StoreFull),
        StoreFault::NoMemory => CommandFault::NoMemory,
    }
}

/// The polygon of these points.
fn polygon(alloc: Global, points: &[Point]) -> Result<Polygon, CommandFault>
    requires least { LEAST_VERTICES ≤ length points.now }
    requires most { length points.now ≤ VERTEX_LIMIT }
    ensures { MatchResult result (λ p. (p ≡ points.now) × (is_convex points.now ≡ true)) (IsFlat points.now) }
{
    match Polygon::new(alloc, points) {
        Ok(polygon) => Ok(polygon),
        Err(PolygonFault::NoMemory) => Err(CommandFault::NoMemory),
        Err(_) => Err(CommandFault::Refused(Refusal::NotConvex)),
    }
}

/// Adds a region of a new name. A refusal and want of memory change nothing.
fn add_region(database: &mut Database, name: Word, polygon: Polygon) -> Result<Change, CommandFault>
    requires new { is_some (region_number database.old.regions name) ≡ false }
    requires convex { is_convex polygon ≡ true }
    requires timely { IsTimely database.old }
    ensures { Attempts (Tree.Region name polygon) database.old database.new result }
{
    if database.regions.count() >= REGION_LIMIT {
        drop(polygon);
        return Err(CommandFault::Refused(Refusal::StoreFull));
    }
    match database.regions.add(name, polygon) {
        Ok(()) => Ok(Change::Region),
        Err(_) => Err(CommandFault::NoMemory),
    }
}

/// Why no polygon could be made for want of memory: the list of regions is full, or there is no memory.
fn no_room(regions: &Regions) -> CommandFault
    ensures { result ≡ (if nat_le REGION_LIMIT (length regions.now)
        then faults.Refused refusals.StoreFull else faults.NoMemory) }
{
    if regions.count() >= REGION_LIMIT {
        CommandFault::Refused(Refusal::StoreFull)
    } else {
        CommandFault::NoMemory
    }
}

/// Makes a region. A refusal and want of memory change nothing.
fn region(
    alloc: Global,
    database: &mut Database,
    name: Word,
    points: &[Point],
) -> Result<Change, CommandFault>
    requires ready { IsReadyCommand (Tree.Region name points.now) }
    requires timely { IsTimely database.old }
    ensures { Attempts (Tree.Region name points.now) database.old database.new result }
{
    if database.regions.number_of(&name).is_some() {
        return Err(CommandFault::Refused(Refusal::NameTaken));
    }
    match polygon(alloc, points) {
        Ok(polygon) => add_region(database, name, polygon),
        Err(CommandFault::Refused(refusal)) => Err(CommandFault::Refused(refusal)),
        Err(CommandFault::NoMemory) => Err(no_room(&database.regions)),
    }
}

/// Moves the clock. A refusal changes nothing.
fn tick(database: &mut Database, ticks: u32) -> Result<Change, CommandFault>
    requires ready { IsTick ticks }
    requires timely { IsTimely database.old }
    ensures { Attempts (Tree.Tick ticks) database.old database.new result }
{
    if database.clock + ticks > LAST_TICK {
        return Err(CommandFault::Refused(Refusal::ClockEnd));
    }
    database.clock += ticks;
    Ok(Change::Clock(ticks))
}

impl Database {
    /// Carries out a command that the journal keeps, so that it can be taken back. A refusal and want of
    /// memory change nothing, and want of memory is told only where no refusal holds.
    #[inline(always)]
    pub fn attempt(&mut self, alloc: Global, command: &Command) -> Result<Change, CommandFault>
        requires kept { is_kept (command_view command.now) ≡ true }
        requires data { is_on_queries (command_view command.now) ≡ false }
        requires ready { IsReadyCommand (command_view command.now) }
        requires timely { IsTimely self.old }
        ensures { Attempts (command_view command.now) self.old self.new result }
    {
        match command {
            Command::Class {
                name,
                capacity,
                point,
                attrs,
            } => objects::class(alloc, self, *name, *capacity, *point, attrs),
            Command::Region { name, points } => region(alloc, self, *name, points.items()),
            Command::Insert {
                class,
                name,
                place,
                sets,
            } => objects::insert(self, class, name, &place.place(), sets.items()),
            Command::Update { name, place, sets } => {
                objects::update(self, name, &place.place(), sets.items())
            }
            Command::Remove { name } => objects::remove(self, name),
            Command::Tick { ticks } => tick(self, *ticks),
            _ => unreachable!(),
        }
    }

    /// Takes the last change back. It takes no memory.
    pub fn take_back(&mut self, change: Change)
        requires { IsLast change self.old }
        ensures { self.new ≡ without change self.old }
    {
        match change {
            Change::Class => self.store.remove_last_class(),
            Change::Region => self.regions.remove_last(),
            Change::Object(done) => self.store.revert(done.undo),
            Change::Clock(ticks) => self.clock -= ticks,
        }
    }
}
