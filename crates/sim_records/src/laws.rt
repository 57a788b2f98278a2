//! Laws of sim records.
ghost use Rattle.std.specs.Prelude.{◌≡◌, Ok};
ghost use Rattle.ext_model.specs.declared.circuits.Circuit.{Circuit};
ghost use Rattle.sim_text.specs.SimTexts.{sim_in};
ghost use Rattle.sim_text.specs.WrittenTexts.{sim_text};
ghost use Rattle.sim_records.specs.SimRecords.{sim_of};
ghost use Rattle.sim_records.specs.SimNames.{HasSimNames, HasNumbersThatFit};

/// The sim records of a circuit are read from their text as the same, where its names and letters are those that a sim text can have
/// and its numbers fit 128 bits with sign.
pub fn sim_records_are_read_back()
    ensures { (circuit : Circuit) → HasSimNames circuit → HasNumbersThatFit circuit → sim_in (sim_text (sim_of circuit)) ≡ Ok (sim_of circuit) }
{}
