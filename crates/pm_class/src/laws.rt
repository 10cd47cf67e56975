//! What follows for every class from its laws.
ghost use Rattle.pm_class.specs.Sampling.{EachListIsSampled};
ghost use Rattle.pm_class.specs.Undoing.{UnsamplingUndoes, UnsamplingUndoesUnnamed, SamplingUndoes, EachMapIsUnsampled, ListsAreResidues};

use crate::map_class::MapClass;

/// A law of every class, to call upon; nothing is computed. `unsample` undoes `sample`: from a sample it gives the choices
/// that gave it.
pub fn unsample_undoes_sample<C: MapClass>()
    ensures { UnsamplingUndoes C.is_size C.choice_limits C.residue_limits C.has C.answers C.samples }
{
    C::is_one_to_one();
}

/// A law of every class, to call upon; nothing is computed. `unsample` undoes `sample_unnamed` too.
pub fn unsample_undoes_unnamed<C: MapClass>()
    ensures { UnsamplingUndoesUnnamed C.is_size C.choice_limits C.residue_limits C.has C.answers C.samples }
{
    C::is_one_to_one();
}

/// A law of every class, to call upon; nothing is computed. `sample` undoes `unsample`: the choices that it gives for a map
/// and a residue give the map, in its canonical numbering, and that residue.
pub fn sample_undoes_unsample<C: MapClass>()
    ensures { SamplingUndoes C.is_size C.choice_limits C.residue_limits C.has C.answers C.samples }
{
    C::is_one_to_one();
}

/// A law of every class, to call upon; nothing is computed. Each valid list of choices of a size gives a map and a residue:
/// the map is canonical and of the class and size, and the residue is valid.
pub fn each_list_is_sampled<C: MapClass>()
    ensures { (size : C.Size) → C.is_size size → EachListIsSampled (C.choice_limits size) (C.residue_limits size) (C.has size) (C.samples size) }
{
    C::is_one_to_one();
}

/// A law of every class, to call upon; nothing is computed. Each map of the class, whatever the names of its darts, comes
/// with each valid residue from some valid list, by way of its canonical map.
pub fn each_map_is_unsampled<C: MapClass>()
    ensures { EachMapIsUnsampled C.is_size C.choice_limits C.residue_limits C.has C.answers C.samples }
{
    C::is_one_to_one();
}

/// A law of every class, to call upon; nothing is computed. The lists that give a map are one to one with the valid
/// residues of its size. So each map of a size comes from as many lists, and choices drawn evenly give maps drawn evenly.
pub fn lists_are_residues<C: MapClass>()
    ensures { ListsAreResidues C.is_size C.residue_limits C.has C.samples }
{
    C::is_one_to_one();
}
