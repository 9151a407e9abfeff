//! The law, as the contract of a function that does nothing.
ghost use Rattle.cpc_chains_print_laws.specs.Laws.{ConvertedReadsBack};

/// Of a text that is accepted, a print of its event program is read in the dialect Event as the event program again.
pub fn converted_reads_back()
    ensures law { ConvertedReadsBack }
{}
