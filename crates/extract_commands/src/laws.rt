//! The laws of the commands that extract a cell. The functions here do nothing; their contracts are the laws.
ghost use Rattle.extract_commands.specs.OneCircuits.{CellCircuitsAreUnique, CellCircuitsPassNoLimit, CellLimitsAreUnique};
ghost use Rattle.extract_commands.specs.OneExtractions.{ExtractedCellsAreNotRefused, ExtractionsAreUnique, UncleanRefusalsAreUnique};
ghost use Rattle.extract_commands.specs.OneEffects.{CircuitMeansOneEffect, ExtractMeansOneEffect, GenerateMeansOneEffect};
ghost use Rattle.extract_commands.specs.OneEffects.{VectorsMeansOneEffect};

use uniqueness::{
    circuit_answers_are_unique, flat_circuits_are_unique, records_of_trees_are_unique,
    unattached_texts_are_unique, unclean_cells_are_unique, written_circuits_are_unique,
};

/// A cell of a lawful library has one extraction, or is refused with one effect.
pub fn extractions_are_unique()
    ensures extractions { ExtractionsAreUnique }
    ensures refusals { UncleanRefusalsAreUnique }
    ensures either { ExtractedCellsAreNotRefused }
{
    unattached_texts_are_unique();
    unclean_cells_are_unique();
}

/// A clean cell of a lawful library has one circuit, or passes one limit.
pub fn cell_circuits_are_unique()
    ensures circuits { CellCircuitsAreUnique }
    ensures limits { CellLimitsAreUnique }
    ensures either { CellCircuitsPassNoLimit }
{
    records_of_trees_are_unique();
    flat_circuits_are_unique();
}

/// Each command that extracts a cell has one effect, for each number of its line, state with a lawful library, budget and file. Of `generate` the
/// library with the cells that it made is to be lawful.
pub fn extracting_lines_have_one_effect()
    ensures extract { ExtractMeansOneEffect }
    ensures circuit { CircuitMeansOneEffect }
    ensures vectors { VectorsMeansOneEffect }
    ensures generate { GenerateMeansOneEffect }
{
    extractions_are_unique();
    cell_circuits_are_unique();
    written_circuits_are_unique();
    circuit_answers_are_unique();
}
