//! The law that sim files which are read can be simulated. The function here does nothing; its contract is the law.
ghost use Rattle.std.specs.Prelude.{◌≡◌, ℕ, List, Ok, All};
ghost use Rattle.sim_text.specs.declared.files.SimFile.{SimFile as Circuit};
ghost use Rattle.sim_text.specs.SimTexts.{sim_in};
ghost use Rattle.sim_networks.specs.SimNetworks.{HasLetter};

/// Each transistor of a sim text has a letter that makes a switch.
pub fn read_records_have_letters()
    ensures { (text : List ℕ) (sim : Circuit) → sim_in text ≡ Ok sim → All HasLetter sim.fets }
{}
