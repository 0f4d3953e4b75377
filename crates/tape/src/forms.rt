// That fills and blocks belong together one by one.
ghost use Rattle.tape.specs.Forms.{OneForm};

// Every list of fills that may be written has exactly one block, in which each entry of each fill stands at its
// place, and which is read back as that list and no other. The contract is the theorem.
pub fn every_list_has_one_block()
    ensures { OneForm }
{}
