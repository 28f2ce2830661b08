//! Serves connections as they arrive, and appends a line to a journal for each one that ended.
ghost use Rattle.std.specs.Prelude.{◌≡◌, [], ◌∷◌, None};
ghost use Rattle.hub_serve.specs.Connections.{Adds, TakesMoment};
ghost use Rattle.hub_journal.specs.Journaled as spec;
ghost use Rattle.hub_journal.specs.Line.{line};

use crate::line::{ConnectionEnd, Entry, line_of};
use crate::reader::RecordingReader;
use crate::writer::RecordingWriter;
use edi_base::{Sink, Source};
use edi_moment::Moment;
use hub_serve::{Connections, Ending, Moments, NoConnection, Served, Sides};

/// A journal of lines.
pub trait Journal {
    ghost use Rattle.std.specs.Prelude.{ℕ, List, [], ◌∷◌, Option, None};
    ghost use Rattle.hub_serve.specs.Connections.{Adds};

    // The lines that were appended, in order, if they are known.
    ghost lines: { Self → Option (List (List ℕ)) } = { λ _. None };

    /// Appends one line, including its line end.
    fn append(&mut self, line: &[u8])
        ensures { Adds (lines self.old) (lines self.new) (line.now ∷ []) };
}

/// Connections that each leave a line in a journal when they end, with the moment at which they were accepted. All else
/// is as with the connections inside.
#[derive(Drop)]
pub struct Journaled<L, M, J> {
    connections: L,
    moments: M,
    journal: J,
    number: u64,
    moment: Option<Moment>,
}

// Returns how a connection ended.
fn outcome_of(ending: Ending, timed_out: bool) -> ConnectionEnd
    ensures { result ≡ spec.outcome_of ending timed_out }
{
    match ending {
        Ending::Answered(Served { status, .. }) => ConnectionEnd::Answered(status),
        Ending::Gone => ConnectionEnd::Gone,
        Ending::ReadFailed if timed_out => ConnectionEnd::TimedOut,
        Ending::ReadFailed => ConnectionEnd::ReadFailed,
        Ending::WriteFailed => ConnectionEnd::WriteFailed,
    }
}

impl<L, M, J> Journaled<L, M, J> {
    /// Combines connections, the moments at which they arrive, and their journal. The first connection has the number
    /// 1.
    pub fn new(connections: L, moments: M, journal: J) -> Self
        ensures connections { result.connections ≡ connections }
        ensures moments { result.moments ≡ moments }
        ensures journal { result.journal ≡ journal }
        ensures number { result.number ≡ 0 }
    {
        Journaled {
            connections,
            moments,
            journal,
            number: 0,
            moment: None,
        }
    }
}

impl<L, M: Drop, J: Drop> Journaled<L, M, J> {
    /// Returns the connections.
    pub fn into_connections(self) -> L
        ensures { result ≡ self.connections }
    {
        let Journaled {
            connections,
            moments: _,
            journal: _,
            number: _,
            moment: _,
        } = self;
        connections
    }
}

impl<L, M: Moments, J: Journal> Journaled<L, M, J> {
    // Counts a connection that has just arrived.
    fn count(&mut self)
        ensures number { self.new.number ≡ spec.next_number self.old.number }
        ensures moment { TakesMoment (M.coming self.old.moments) (M.coming self.new.moments) self.new.moment }
        ensures connections { self.new.connections ≡ self.old.connections }
        ensures journal { self.new.journal ≡ self.old.journal }
    {
        self.number = self.number.saturating_add(1);
        self.moment = self.moments.next();
    }

    // Appends the line of the latest connection to the journal.
    fn tell(&mut self, read: &[u8], sent: &[u8], outcome: ConnectionEnd)
        ensures told { Adds (J.lines self.old.journal) (J.lines self.new.journal)
            (line self.old.moment self.old.number read.now sent.now outcome ∷ []) }
        ensures connections { self.new.connections ≡ self.old.connections }
        ensures moments { self.new.moments ≡ self.old.moments }
        ensures number { self.new.number ≡ self.old.number }
        ensures moment { self.new.moment ≡ self.old.moment }
    {
        let line = line_of(&Entry {
            moment: self.moment,
            number: self.number,
            read,
            sent,
            outcome,
        });
        self.journal.append(line.as_slice());
    }
}

// Wraps the two sides of a connection.
fn recording_sides<R, W>(sides: Sides<R, W>) -> Sides<RecordingReader<R>, RecordingWriter<W>>
    ensures reader { result.reader.reader ≡ sides.reader }
    ensures writer { result.writer.writer ≡ sides.writer }
    ensures read { result.reader.front ≡ [] }
    ensures written { result.writer.front ≡ [] }
{
    let Sides { reader, writer } = sides;
    Sides {
        reader: RecordingReader::new(reader),
        writer: RecordingWriter::new(writer),
    }
}

impl<L: Connections, M: Moments, J: Journal> Connections for Journaled<L, M, J> {
    ghost use Rattle.std.specs.Prelude.{◌≡◌, ◌||◌, [], ◌∷◌, IfOk};
    ghost use Rattle.hub_serve.specs.Connections as inner;
    ghost use Rattle.hub_serve.specs.Connections.{Adds, IsNew, TakesConnection, closed as as_closed, is_over};
    ghost use Rattle.hub_journal.specs.Journaled.{TellsGone, numbered, outcome_of};
    ghost use Rattle.hub_journal.specs.Line.{line};

    ghost coming = { λ j. L.coming j.connections };

    ghost closed = { λ j. L.closed j.connections };

    ghost failed = { λ j. L.failed j.connections };

    type Reader = RecordingReader<L::Reader>;

    type Writer = RecordingWriter<L::Writer>;

    fn next(&mut self) -> Result<Sides<Self::Reader, Self::Writer>, NoConnection>
        ensures takes { TakesConnection (λ reader. L.Reader.remaining reader.reader)
            (L.coming self.old.connections) (L.coming self.new.connections) result }
        ensures is_new { IfOk result (λ sides. IsNew (L.Writer.contents sides.writer.writer)
            (L.Reader.failed sides.reader.reader) (L.Writer.failed sides.writer.writer)) }
        ensures closed { L.closed self.new.connections ≡ L.closed self.old.connections }
        ensures flag { L.failed self.new.connections ≡ (L.failed self.old.connections || is_over result) }
        ensures nothing_read { IfOk result (λ sides. sides.reader.front ≡ []) }
        ensures nothing_sent { IfOk result (λ sides. sides.writer.front ≡ []) }
        ensures number { self.new.number ≡ numbered self.old.number result }
        ensures told { TellsGone (J.lines self.old.journal) (J.lines self.new.journal) self.new.moment self.new.number result }
    {
        match self.connections.next() {
            Ok(sides) => {
                self.count();
                Ok(recording_sides(sides))
            }
            Err(NoConnection::Gone) => {
                self.count();
                self.tell(&[], &[], ConnectionEnd::Gone);
                Err(NoConnection::Gone)
            }
            Err(NoConnection::Over) => Err(NoConnection::Over),
        }
    }

    fn end(&mut self, sides: Sides<Self::Reader, Self::Writer>, ending: Ending)
        ensures coming { L.coming self.new.connections ≡ L.coming self.old.connections }
        ensures closed { Adds (L.closed self.old.connections) (L.closed self.new.connections)
            (as_closed (L.Reader.remaining sides.reader.reader) (L.Writer.contents sides.writer.writer)
            (L.Reader.failed sides.reader.reader) (L.Writer.failed sides.writer.writer) ending ∷ []) }
        ensures flag { L.failed self.new.connections ≡ L.failed self.old.connections }
        ensures told { Adds (J.lines self.old.journal) (J.lines self.new.journal)
            (line self.old.moment self.old.number sides.reader.front sides.writer.front
            (outcome_of ending sides.reader.timed_out) ∷ []) }
        ensures number { self.new.number ≡ self.old.number }
    {
        let Sides { reader, writer } = sides;
        let outcome = outcome_of(ending, reader.has_timed_out());
        self.tell(reader.front(), writer.front(), outcome);
        let sides = Sides {
            reader: reader.into_inner(),
            writer: writer.into_inner(),
        };
        self.connections.end(sides, ending);
    }
}
