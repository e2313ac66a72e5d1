// Putting elements into an output one after the other, as far as there is room. A place past the
// end is the end, so that no call has to be refused; whoever needs all of a list shows that the
// output holds it.
// The output and the place are parameters one by one, here and in `text`, `report_lines` and
// `report_table`: the clauses name both, and public functions keep theirs.
#![tactic(auto)]

ghost use Rattle.std.specs.Prelude.{◌≡◌, [], ◌∷◌, min};
ghost use Rattle.std.proofs.lemmas.List.Edits.{sets};
ghost use Rattle.outputs.specs.Put.{past};

// The place at which a put starts: `at`, or the end where that comes first.
pub fn within(end: usize, at: usize) -> usize
    ensures { result ≡ min end at }
{
    end.min(at)
}

// Puts an element at a place, if there is such a place. The place after it, or the end.
pub fn put<T: Copy>(out: &mut [T], at: usize, x: T) -> usize
    ensures value { result ≡ past out.old at (x ∷ []) }
    ensures out_after { out.new ≡ sets out.old at (x ∷ []) }
{
    if at < out.len() {
        out[at] = x;
        at + 1
    } else {
        out.len()
    }
}
