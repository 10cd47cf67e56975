//! The law of the sampler of simple triangulations.
ghost use Rattle.pm_trisample.specs.SampleLaws.{TriListsAreSampled, TriListsHaveOneSample};

/// Each valid list of choices of a size has a sample, and only one: a canonical map, which is a simple triangulation of the size, and
/// a residue, which is valid.
pub fn tri_lists_are_sampled()
    ensures each { TriListsAreSampled }
    ensures one { TriListsHaveOneSample }
{}
