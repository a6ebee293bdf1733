// Laws of sections over whole lists of packets: each is the contract of a function that does nothing.
ghost use Rattle.section_parse.specs.Laws.{SectionsLieEndToEnd, SectionsStay, SectionsRecover, SectionsAreWhole, SectionsFitThePackets};

/// Reading a segment takes the section at its front, and goes on behind it.
#[tactic(auto, using(crate::proofs::WholeLists::end_to_end))]
pub fn sections_lie_end_to_end()
    ensures { SectionsLieEndToEnd }
{}

/// The sections of the first packets stay the first sections, whatever packets follow.
#[tactic(auto, using(crate::proofs::WholeLists::stay))]
pub fn sections_stay()
    ensures { SectionsStay }
{}

/// Behind a break, the sections are those of the packets after it alone, whatever came before.
#[tactic(auto, using(crate::proofs::WholeLists::recover))]
pub fn sections_recover()
    ensures { SectionsRecover }
{}

/// Each section has 3 to 4096 bytes, as many as its section_length says.
pub fn each_section_is_whole()
    ensures { SectionsAreWhole }
{}

/// All sections together have at most 184 bytes for each packet.
#[tactic(auto, using(crate::proofs::WholeLists::fit))]
pub fn sections_fit_their_packets()
    ensures { SectionsFitThePackets }
{}
