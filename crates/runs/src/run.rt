// The machine of document 01: the plan of an accepted run, and what its first n switches leave.
ghost use Rattle.std.specs.Prelude.{◌≡◌, ◌+◌, ◌-◌, ◌≤◌, false, length};
ghost use Rattle.std.proofs.Props.{props};
ghost use Rattle.linear_transformation.specs.Strategies.{width_outside};
ghost use Rattle.runs.specs.Steps.Surveys.{offsets_in, takes};

use crate::answering::give_answer;
use crate::caching::make_babies;
use crate::giants::turn_giants;
use crate::keyed::Progress;
use crate::nodes::Sums;
use crate::surveying::{Asked, Survey, Words};
use crate::tree::Tree;
use linear_transformation::{stored_plan, width_of};

// A run that its survey accepts.
#[derive(Clone, Copy)]
pub(crate) struct Run<'a> {
    pub(crate) asked: Asked<'a>,
    pub(crate) survey: Survey,
    ghost width: { width_outside asked.strategy ≡ false },
    ghost whole: { length asked.input.now ≡ asked.map.slots },
    ghost survey_is: { survey ≡ takes asked.map.slots asked.strategy (offsets_in asked.map) asked.map.count } by { Prim.hlevel props },
}

impl Run<'_> {
    ghost use Rattle.runs.specs.Steps.Runs.{Ready, RunAsked, NodesTurned, GiantsLeft, SameBuffers};
    ghost use Rattle.runs.specs.Steps.Ready.{AcceptedLeft, progress_by};

    // The first `made` of the giant switches, with their rotations in the log behind those of the babies.
    // Per rotation a giant 0, if there is one, stands first and is not turned; with powers of two the
    // pairs of the tree are joined.
    fn turn_nodes(&self, made: usize, words: &mut Words<'_>)
        requires run_asked { RunAsked self.now words.old }
        requires made_bound { self.now.survey.babies - 1 + made ≤ self.now.survey.switches }
        ensures same { SameBuffers words.old words.new }
        ensures turned { NodesTurned self.now made words.old words.new }
    {
        let survey = self.survey;
        let own = survey.baby_switches();
        let plan = &mut words.plan[..];
        let nodes = &mut words.nodes[..];
        let log = &mut words.log[own..own + made];
        let giants = survey.parts(plan).giants;
        let slots = self.asked.map.slots;
        match survey.powers {
            None => {
                let start = giants.len() - (survey.switches - own);
                turn_giants(giants, start, slots, nodes, log);
            }
            Some(p) => {
                let width = width_of(self.asked.strategy);
                let tree = Tree {
                    giants,
                    width,
                    slots,
                    bits: p.bits,
                };
                tree.join_pairs(nodes, log);
            }
        }
    }

    // All that follows the last baby switch: the nodes, the giant switches as far as n allows, and after
    // the last of them the answer.
    fn run_giants(&self, n: usize, words: &mut Words<'_>)
        requires run_asked { RunAsked self.now words.old }
        requires babies_bound { self.now.survey.babies - 1 ≤ n }
        ensures same { SameBuffers words.old words.new }
        ensures left { GiantsLeft self.now n words.old words.new }
    {
        let survey = self.survey;
        let plan = &mut words.plan[..];
        let cache = &mut words.cache[..];
        let nodes = &mut words.nodes[..];
        let sums = Sums {
            parts: survey.parts(plan),
            map: self.asked.map,
            input: self.asked.input,
            cache,
        };
        sums.make_nodes(nodes);
        let own = survey.baby_switches();
        let made = n.min(survey.switches) - own;
        self.turn_nodes(made, words);
        if n < survey.switches {
            return;
        }
        let nodes = &mut words.nodes[..];
        let out = &mut words.out[..self.asked.map.slots];
        give_answer(survey.powers, survey.giants, nodes, out);
    }

    // The plan, and the machine of document 01 after n switches.
    pub(crate) fn carry_out(&self, n: usize, offsets: &[u32], words: &mut Words<'_>)
        requires ready { Ready self.now words.old }
        requires offsets_value { offsets.now ≡ offsets_in self.now.asked.map }
        ensures same { SameBuffers words.old words.new }
        ensures left { AcceptedLeft self.now n words.old words.new }
    {
        let plan = &mut words.plan[..];
        let cache = &mut words.cache[..];
        let log = &mut words.log[..];
        let survey = self.survey;
        stored_plan(offsets, self.asked.map.slots, self.asked.strategy, plan).unwrap();
        let own = survey.baby_switches();
        let first = n.min(own);
        let babies = survey.parts(plan).babies;
        make_babies(babies, survey.powers, first, self.asked.input, cache, log);
        if n < own {
            return;
        }
        self.run_giants(n, words);
    }

    // The answer of a run that may make n switches.
    pub(crate) fn progress(&self, n: usize) -> Progress
        ensures { result ≡ progress_by self.now.survey n }
    {
        let survey = self.survey;
        Progress {
            switches: n.min(survey.switches),
            finished: survey.switches <= n,
            babies: survey.babies as u32,
            giants: survey.giants as u32,
            diagonals: survey.diagonals as u32,
            pairs: survey.pairs,
        }
    }
}
