//! Laws of histories, each the contract of a function that does nothing.

ghost use Rattle.std.specs.Prelude.{ℕ, ◌*◌};
ghost use Rattle.av_tree.specs.Values.{Assignment};
ghost use Rattle.av_flat.specs.Helped.{HelperWords, IsHelpedSolution};
ghost use Rattle.av_kinds.specs.declared.counter.Counter.{Counter};
ghost use Rattle.av_kinds.specs.Counters.{count_in, number_count};
ghost use Rattle.av_kinds.specs.Histories.{Tasks, Signals, IsHistory};
ghost use Rattle.av_history.specs.Performing.{Array, Lanes, Perform};
ghost use Rattle.av_history.specs.Arranged.{IsArranged};
ghost use Rattle.av_history.specs.Problems.{Presents, HaveWords, CountsAnew};

/// A law on arrays: where the tasks of lanes perform an array, the lanes have in each history the words of the system's solution for
/// the inputs that are presented.
///
/// Inputs and words may come any number of cycles later than the array says, if the counter has the same numbers there.
/// Whatever the ports have in other cycles, and the lines before their first words come out, makes no difference.
pub fn arrays_have_solutions()
    ensures { (a : Array) (lanes : Lanes) (tasks : Tasks) (count : ℕ → ℕ)
        → IsArranged a → Perform a lanes tasks count → (n : ℕ) (ports words : Signals)
        → IsHistory tasks count n ports words → (start : ℕ) → CountsAnew a count start
        → (x u : Assignment) (g : HelperWords) → IsHelpedSolution a.system a.helpers x u g
        → Presents a start x n ports → HaveWords a lanes start u n words }
{}

/// A law on arrays: with a counter that begins anew after so many numbers, the problem with the number `k` may begin `k` times as many
/// cycles later, and the lanes have its solution's words that much later. So each of the problems that one history is given has its
/// own solution, whatever the others are.
pub fn each_problem_has_its_solution()
    ensures { (a : Array) (lanes : Lanes) (tasks : Tasks) (counter : Counter)
        → IsArranged a → Perform a lanes tasks (count_in counter)
        → (n : ℕ) (ports words : Signals) → IsHistory tasks (count_in counter) n ports words
        → (k : ℕ) (x u : Assignment) (g : HelperWords) → IsHelpedSolution a.system a.helpers x u g
        → Presents a (k * number_count counter) x n ports
        → HaveWords a lanes (k * number_count counter) u n words }
{}
