//! Labels of names.
ghost use Rattle.std.specs.Prelude.{◌<◌, length};
ghost use Rattle.name_classes.specs.FullNames.Names.{AreNames, elements_in};
ghost use Rattle.flatten.specs.steps.Spots.{HasSpotAt, HaveLabels, GivesNode, IsLabel};

use name_classes::full_names::{FullNames, Spot};

/// The number of the node of a name of an element's record. It takes no memory.
pub fn node_of(names: &FullNames<'_>, labels: &[usize], element: usize, spot: Spot) -> usize
    requires names { AreNames names.now }
    requires long { HaveLabels names.now labels.now }
    requires element { element < length (elements_in names.now) }
    requires spot { HasSpotAt names.now element spot }
    ensures node { GivesNode names.now labels.now element spot result }
    ensures label { IsLabel labels.now result }
{
    labels[names.number(element, spot)]
}
