// The rule that a search has found is spelled into lent bytes.
ghost use Rattle.std.specs.Prelude.{◌≡◌, ◌+◌, ◌≤◌, length};
ghost use Rattle.rules.specs.Answers.{written};
ghost use Rattle.rules.specs.Writing.{the_writing, Writes, HasRoomFor};
ghost use Rattle.candidates.specs.Viewed.{the_view};
ghost use Rattle.search.specs.Holds.{the_held};
ghost use Rattle.search.specs.Memory.{loaded, problem_in};
ghost use Rattle.search.specs.Searched.{seen_memory};
ghost use Rattle.search.specs.Spelled.{frames_spelled, spelled_in};

use crate::machine::Machine;
use crate::seen::Seen;
use candidates::Problem;
use rules::Writer;

impl Machine {
    // Spells the parts that the frames in use have chosen.
    fn put_parts(&self, problem: Problem, writer: &mut Writer)
        requires { HasRoomFor (the_writing writer.old) 528 }
        ensures writes { Writes writer.old writer.new (frames_spelled (the_view problem.entry) self.now.depth self.now.frames) }
        ensures bound { (the_writing writer.new).at ≤ (the_writing writer.old).at + 528 }
    {
        for frame in &self.frames[..self.depth] {
            let chosen = (frame.index as usize).saturating_sub(1);
            problem.put_candidate(&frame.state, chosen, writer);
        }
    }

    // Spells the rule of these parts, and says with how many bytes. Apart from `Seen::spell`, in which the proof of `after` doesn't close.
    fn spell(&self, problem: Problem, out: &mut [u8]) -> usize
        requires { 529 ≤ length out.old }
        ensures value { result ≡ length (spelled_in (the_view problem.entry) (the_held self.now)) }
        ensures bound { result ≤ 529 }
        ensures after { out.new ≡ written out.old 0 (spelled_in (the_view problem.entry) (the_held self.now)) }
    {
        let mut writer = Writer::new(out);
        writer.put(&[self.depth as u8]);
        self.put_parts(problem, &mut writer);
        writer.at()
    }
}

impl Seen<'_> {
    // Spells the rule that the search has found, and says with how many bytes.
    pub fn spell(self, out: &mut [u8]) -> usize
        requires { 529 ≤ length out.old }
        ensures value { result ≡ length (spelled_in (problem_in (seen_memory self.entry)) (loaded (seen_memory self.entry))) }
        ensures bound { result ≤ 529 }
        ensures after { out.new ≡ written out.old 0 (spelled_in (problem_in (seen_memory self.entry)) (loaded (seen_memory self.entry))) }
    {
        self.machine().spell(self.problem(), out)
    }
}
