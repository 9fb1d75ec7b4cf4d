// Marks in a text: how the programs that work on several tapes cut their input.
#![tactic(auto)]

ghost use Rattle.std.specs.Prelude.{◌≡◌};
ghost use Rattle.test_text.specs.Marks.{next_mark};

// The first place from `from` on at which the mark stands or no text is left. By a loop: with `position` a file of
// comments took `test_instructions` 1.6 times the time.
pub fn next_mark(text: &[u8], from: usize, mark: u8) -> usize
    ensures { result ≡ next_mark mark text.now from }
{
    let mut place = from;
    while place < text.len() {
        if text[place] == mark {
            return place;
        }
        place += 1;
    }
    place
}
