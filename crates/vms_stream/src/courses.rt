use crate::taking::take_lines;
use crate::{Job, Status};
use std::alloc::Global;
use vms_base::Memory;
use vms_io::{ReadBuffer, Sink, Source, last_line_end, write_all};

/// The most bytes of an input.
const MOST_BYTES: usize = 1 << 26;

/// A command on its way through its input.
#[derive(Drop)]
pub(crate) struct Course {
    /// What was read and not judged yet.
    input: ReadBuffer,
    /// What was printed and not written yet.
    waiting: Vec<u8>,
    /// How many bytes were read.
    taken: usize,
    pub(crate) at_end: bool,
}

impl Course {
    ghost use Rattle.std.specs.Prelude.{◌≡◌, ℕ, ◌+◌, ◌-◌, ◌<◌, ◌≤◌, ◌⊎◌, true, false, List, [], length, take, drop};
    ghost use Rattle.std.specs.Prelude.{◌≢◌, IfErr, IfOk, OnErr, OnOk};
    ghost use Rattle.std.specs.Io.KnownBytes.{Appends, Consumes, IsAtEnd, Keeps};
    ghost use Rattle.vms_io.specs.Common.{Gets};
    ghost use Rattle.vms_stream.specs.Answers.{FaultsOfSink, most_bytes};
    ghost use Rattle.vms_stream.specs.Courses.{CountsReads, CountsWrites, FinishesPhased, IsPhasedCourse, StepsPhased};
    ghost use Rattle.vms_stream.specs.Courses.{lines_held, status_in};
    ghost use Rattle.vms_stream.specs.Pieces.{partial_line};
    ghost use Rattle.vms_stream.specs.Readings.{reading_of};
    ghost use Rattle.vms_stream.specs.Taking.{TakesText};
    ghost use Rattle.vms_text.specs.Common.{lines_of};

    /// Before the first piece.
    pub(crate) fn begin(alloc: Global) -> Result<Course, Memory>
        ensures { IfOk result (λ course. (course.input ≡ []) × (course.waiting.items ≡ [])
            × (course.taken ≡ 0) × (course.at_end ≡ false)) }
    {
        Ok(Course {
            input: ReadBuffer::make(alloc)?,
            waiting: Vec::new(alloc),
            taken: 0,
            at_end: false,
        })
    }

    /// Reads once more.
    fn read<S: Source>(&mut self, src: &mut S) -> Result<(), Status>
        requires counted { self.old.taken ≤ most_bytes }
        requires held { length self.old.input ≤ self.old.taken }
        ensures ok { OnOk result (Gets self.old.input self.new.input (S.remaining src.old) (S.remaining src.new)
            (self.new.taken - self.old.taken)) }
        ensures counted { OnOk result (self.old.taken ≤ self.new.taken) }
        ensures end { OnOk result (self.new.at_end ≡ true → self.new.taken ≡ self.old.taken) }
        ensures more { OnOk result (self.new.at_end ≡ false → self.old.taken < self.new.taken) }
        ensures waits { OnOk result (self.new.waiting ≡ self.old.waiting) }
        ensures unread { OnErr result (Keeps (S.remaining src.old) (S.remaining src.new)) }
        ensures cause { IfErr result (λ status. (status ≡ Status.ReadFault) ⊎ (status ≡ Status.Memory)) }
        ensures counts { CountsReads S.remaining S.faults S.calls result src.old src.new }
        ensures once { S.calls src.new ≤ S.calls src.old + 1 }
    {
        let count = read(&mut self.input, src)?;
        self.taken += count;
        self.at_end = count == 0;
        Ok(())
    }

    /// How many of the bytes that are held can be judged.
    fn ready(&mut self) -> usize
        requires { self.old.taken ≤ most_bytes + length self.old.input }
        ensures within { result ≤ length self.old.input }
        ensures same { self.new ≡ self.old }
        ensures lines { lines_of (take result self.old.input) ≡ lines_held self.old }
        ensures after { self.old.at_end ≡ false → self.old.taken ≤ most_bytes →
            drop result self.old.input ≡ partial_line self.old.input }
    {
        let held = self.input.bytes().len();
        let beyond = self.taken.saturating_sub(MOST_BYTES);
        if self.at_end {
            held - beyond
        } else if beyond > 0 {
            last_line_end(&self.input.bytes()[..held - beyond])
        } else {
            self.input.whole_lines()
        }
    }

    /// Judges the lines of what is held, and writes what waits wherever it is more than 64 KiB.
    fn judge<J: Job, K: Sink>(
        &mut self,
        job: &mut J,
        engine: &mut J::Engine,
        out: &mut K,
    ) -> Result<Option<Status>, Status>
        requires job { (s : J.State) × J.Stands job.old s }
        requires counted { self.old.taken ≤ most_bytes + length self.old.input }
        ensures takes { TakesText J.behavior (J.Stands job.old) (J.Stands job.new)
            (J.made engine.old) (J.made engine.new) (lines_held self.old) result
            self.old.waiting.items self.new.waiting.items (K.written out.old) (K.written out.new) }
        ensures held { OnOk result (self.old.at_end ≡ false → self.old.taken ≤ most_bytes →
            self.new.input ≡ partial_line self.old.input) }
        ensures same_count { self.new.taken ≡ self.old.taken }
        ensures same_end { self.new.at_end ≡ self.old.at_end }
        ensures cause { IfErr result (λ status. (status ≡ Status.Memory) ⊎ (status ≡ Status.WriteFault)) }
        ensures counts { CountsWrites K.written K.faults K.calls result out.old out.new }
    {
        let ready = self.ready();
        let halt = take_lines(
            job,
            engine,
            &self.input.bytes()[..ready],
            &mut self.waiting,
            out,
        )?;
        self.input.drop_front(ready);
        Ok(halt)
    }

    /// Writes what waits. Then nothing waits.
    fn flush<K: Sink>(&mut self, out: &mut K) -> Result<(), Status>
        ensures ok { OnOk result (Appends (K.written out.old) (K.written out.new) self.old.waiting.items) }
        ensures empty { OnOk result (self.new.waiting.items ≡ []) }
        ensures err { OnErr result ((n : ℕ)
            × Appends (K.written out.old) (K.written out.new) (take n self.old.waiting.items)) }
        ensures cause { IfErr result (λ status. status ≡ Status.WriteFault) }
        ensures same_input { self.new.input ≡ self.old.input }
        ensures same_count { self.new.taken ≡ self.old.taken }
        ensures same_end { self.new.at_end ≡ self.old.at_end }
        ensures counts { CountsWrites K.written K.faults K.calls result out.old out.new }
    {
        write_all(out, self.waiting.as_slice())?;
        self.waiting.clear();
        Ok(())
    }

    /// Reads a piece of the input, judges it, and writes what its lines print.
    pub(crate) fn step<J: Job, S: Source, K: Sink>(
        &mut self,
        job: &mut J,
        engine: &mut J::Engine,
        src: &mut S,
        out: &mut K,
    ) -> Result<(), Status>
        requires course { (outcomes : List J.Outcome) × (taken : List ℕ) × (written : List ℕ)
            × IsPhasedCourse J.behavior (J.Stands job.old) outcomes taken written self.old }
        requires before_end { self.old.at_end ≡ false }
        ensures steps { (first : S) (outcomes : List J.Outcome) (taken : List ℕ) (written : List ℕ) →
            Consumes (S.remaining first) (S.remaining src.old) taken →
            IsPhasedCourse J.behavior (J.Stands job.old) outcomes taken written self.old →
            StepsPhased J.behavior (J.Stands job.new) J.Shows outcomes taken written self.new
            (J.made engine.old) (J.made engine.new) (S.remaining src.old) (S.remaining src.new)
            (K.written out.old) (K.written out.new) (reading_of S.remaining S.calls first src.new) result }
        ensures reads { CountsReads S.remaining S.faults S.calls result src.old src.new }
        ensures writes { CountsWrites K.written K.faults K.calls result out.old out.new }
        ensures nearer { OnOk result (self.new.at_end ≡ false → self.old.taken < self.new.taken) }
    {
        self.read(src)?;
        let halt = self.judge(job, engine, out)?;
        self.flush(out)?;
        stop_at(halt, self.taken)
    }

    /// Ends the job and writes what is left to write, without a call of the source.
    pub(crate) fn finish<J: Job, S: Source, K: Sink>(
        &mut self,
        job: &mut J,
        engine: &mut J::Engine,
        out: &mut K,
    ) -> Result<Status, Status>
        requires course { (outcomes : List J.Outcome) × (taken : List ℕ) × (written : List ℕ)
            × IsPhasedCourse J.behavior (J.Stands job.old) outcomes taken written self.old }
        requires at_end { self.old.at_end ≡ true }
        ensures finishes { (first last : S) (outcomes : List J.Outcome) (taken : List ℕ) (written : List ℕ) →
            Consumes (S.remaining first) (S.remaining last) taken → IsAtEnd (S.remaining last) →
            IsPhasedCourse J.behavior (J.Stands job.old) outcomes taken written self.old →
            FinishesPhased J.behavior J.Shows outcomes taken written (J.made engine.old) (J.made engine.new)
            (K.written out.old) (K.written out.new) (reading_of S.remaining S.calls first last) result }
        ensures reads { status_in result ≢ Status.ReadFault }
        ensures writes { FaultsOfSink K.written K.faults K.calls (status_in result) out.old out.new }
    {
        let ending = job.end(engine, &mut self.waiting)?;
        self.flush(out)?;
        Ok(ending)
    }
}

ghost use Rattle.std.specs.Prelude.{◌≡◌, ◌+◌, ◌≤◌, ◌⊎◌, IfErr, IfOk, OnErr};
ghost use Rattle.std.specs.Io.KnownBytes.{Keeps};
ghost use Rattle.vms_io.specs.Common.{Gets};
ghost use Rattle.vms_stream.specs.Courses.{CountsReads, StopsAt};

/// Reads once more, and says how many bytes.
fn read<S: Source>(input: &mut ReadBuffer, src: &mut S) -> Result<usize, Status>
    ensures ok { IfOk result (Gets input.old input.new (S.remaining src.old) (S.remaining src.new)) }
    ensures unread { OnErr result (Keeps (S.remaining src.old) (S.remaining src.new)) }
    ensures cause { IfErr result (λ status. (status ≡ Status.ReadFault) ⊎ (status ≡ Status.Memory)) }
    ensures counts { CountsReads S.remaining S.faults S.calls result src.old src.new }
    ensures once { S.calls src.new ≤ S.calls src.old + 1 }
{
    let count = input.read_more(src)?;
    Ok(count)
}

/// Stops where a line stops the command, and else where there are too many bytes.
fn stop_at(halt: Option<Status>, taken: usize) -> Result<(), Status>
    ensures { StopsAt halt taken result }
{
    match halt {
        Some(halt) => Err(halt),
        None if taken > MOST_BYTES => Err(Status::TooLong),
        None => Ok(()),
    }
}
