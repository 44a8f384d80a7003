//! An opened frame: what answers draw on, and what changes of settings change.

ghost use Rattle.std.specs.Prelude.{◌≡◌, ◌+◌, ◌^◌, ◌<◌, ◌≤◌, IfOk, OnOk};
ghost use Rattle.dng_tags.specs.Facts.{IsFrame};
ghost use Rattle.dng_tags.specs.Raw.{raw};
ghost use Rattle.developer.specs.inner.Closing.{IsIdle};
ghost use Rattle.developer.specs.Develop.{stages_under};
ghost use Rattle.developer.specs.Opening.{begun_over};
ghost use Rattle.developer.specs.inner.Planning.{IsPlanned};
ghost use Rattle.developer.specs.inner.Reading.{Sends};
ghost use Rattle.developer.specs.Replies.{answer_of};
ghost use Rattle.developer.specs.Run.{RisesBy};
ghost use Rattle.developer.specs.Sessions.{in_force};
ghost use Rattle.developer.specs.inner.Shown.{option_view};

use crate::line::answer;
use crate::options::Options;
use crate::settings::Planned;
use crate::writing::Cause;
use dev_settings::Settings;
use dev_stages::DevStage;
use dng_tags::Frame;
use frame_segments::Segments;
use raw_io::Sink;
use region_session::{OpenFault, Session, Tally};
use stage_core::Steps;
use std::alloc::{AllocError, Global};
use std::marker::Model;
use std::sync::ledger::Ledger;

/// An accepted frame: its record, the settings in force, and a session of its stages under them.
#[derive(Drop)]
pub(crate) struct OpenedFrame<'a> {
    frame: Frame,
    settings: Settings,
    session: Session<Segments<'a>, DevStage>,
}

impl<'a> Model for OpenedFrame<'a> {
    ghost use Rattle.developer.specs.Develop.{IsInForce};
    ghost use Rattle.developer.specs.Sessions.{InForce, in_force};

    ghost Value = { InForce };

    ghost view = { λ o. in_force o.frame o.settings o.session };

    ghost invariant = { λ o. IsInForce (in_force o.frame o.settings o.session) };
}

impl<'a> OpenedFrame<'a> {
    /// A frame that was read, over its segments, under the settings of a plan of it, with the cells and the budget that
    /// the words ask for.
    pub(crate) fn new(
        alloc: Global,
        frame: Frame,
        segments: Segments<'a>,
        planned: Planned,
        options: &Options<'_>,
    ) -> Result<OpenedFrame<'a>, AllocError>
        requires read { (bytes : _) × IsFrame frame bytes × (segments.plane ≡ raw bytes frame) }
        requires planned { IsPlanned frame planned }
        ensures { IfOk result (λ now. now
            ≡ in_force frame planned.settings
            (begun_over (option_view options.now)
            (record {
              plane = segments.entry.plane;
              cells = segments.entry.cells;
              fetches = segments.entry.fetches;
            })
            (stages_under frame planned.settings))) }
    {
        match Session::open(
            alloc,
            segments,
            planned.stages,
            options.cell,
            u64::from(options.budget),
        ) {
            Ok(session) => Ok(OpenedFrame {
                frame,
                settings: planned.settings,
                session,
            }),
            Err(OpenFault::Memory) => Err(AllocError),
            Err(OpenFault::Shape { .. }) => unreachable!(),
        }
    }

    /// Answers a line of the script.
    pub(crate) fn answer<O: Sink, L: Ledger>(
        &mut self,
        alloc: Global,
        line: &[u8],
        out: &mut O,
        work: &mut Steps<L>,
    ) -> Result<(), Cause>
        requires few { self.old.session.stamps.changes < 2 ^ 40 }
        ensures sends { Sends O.stands_for O.faults out.old out.new (answer_of self.old line.now).bytes result }
        ensures state { OnOk result (self.new ≡ (answer_of self.old line.now).state) }
        ensures few { self.new.session.stamps.changes ≤ self.old.session.stamps.changes + 1 }
    {
        answer(
            alloc,
            &self.frame,
            &mut self.settings,
            &mut self.session,
            line,
            out,
            work,
        )?;
        Ok(())
    }

    /// Ends the session: the tally rises by its numbers, and stays where it did nothing.
    pub(crate) fn close(self, tally: &mut Tally)
        ensures rises { RisesBy self.entry.session tally.old tally.new }
        ensures idle { IsIdle self.entry.session → tally.new ≡ tally.old }
    {
        self.session.close(tally);
    }
}
