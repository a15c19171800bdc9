// The answer of a finished run: per rotation the sum of all nodes, with powers of two the tree's top
// node, which stands at the first place.
ghost use Rattle.std.specs.Prelude.{◌≡◌, ◌*◌, length};
ghost use Rattle.ring.specs.Slots.{modulus};
ghost use Rattle.runs.specs.Machines.{node_sum};
ghost use Rattle.runs.specs.Steps.Runs.{AnswerAsked, top_by, answer_by};

use crate::surveying::Powers;
use crate::turning::add_vector;

// The sum of the first n nodes.
fn sum_nodes(n: usize, nodes: &[u64], out: &mut [u64])
    requires { AnswerAsked n nodes.now out.old }
    ensures { out.new ≡ node_sum modulus (length out.old) n nodes.now }
{
    let slots = out.len();
    out.fill(0);
    for node in nodes[..n * slots].chunks_exact(slots) {
        add_vector(node, out);
    }
}

// The top node stands first; zeros if there is no giant.
fn top_node(giants: usize, nodes: &[u64], out: &mut [u64])
    requires { AnswerAsked giants nodes.now out.old }
    ensures { out.new ≡ top_by giants nodes.now (length out.old) }
{
    if giants == 0 {
        out.fill(0);
        return;
    }
    let slots = out.len();
    ring::copy_into(&nodes[..slots], out);
}

pub(crate) fn give_answer(powers: Option<Powers>, giants: usize, nodes: &[u64], out: &mut [u64])
    requires { AnswerAsked giants nodes.now out.old }
    ensures { out.new ≡ answer_by powers giants nodes.now (length out.old) }
{
    match powers {
        None => sum_nodes(giants, nodes, out),
        Some(_) => top_node(giants, nodes, out),
    }
}
