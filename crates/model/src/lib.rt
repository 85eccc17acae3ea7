// The table by its meaning, and why the steps on its cells are steps of it.
#![tactic(auto)]

ghost use Rattle.std.specs.Prelude.{◌≡◌};
ghost use Rattle.model.specs.Refinement.{Refinement};

// Each step on the cells of a table is the step on what they mean.
pub fn steps_refine<V: Copy>(value: V) -> V
    ensures value { result ≡ value }
    ensures refine { Refinement V }
{
    value
}
