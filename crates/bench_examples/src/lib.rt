// Document 01's bench examples: specs/ has the list, and `bench_examples` holds it.
#![tactic(auto)]

ghost use Rattle.bench_examples.specs.BenchExamples.{BenchExamples};

// Document 01's E1 to E12, a theorem about the definitions: the code does nothing.
pub fn bench_examples()
    ensures { BenchExamples }
{}
