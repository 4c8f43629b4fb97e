//! Laws of effects, meetings and sites, for all facts. docs/rules/acceptance.md, "Facts".
ghost use Rattle.frame_facts.specs.Frames.{StandardFrames};
ghost use Rattle.frame_facts.specs.Machine.{RegistersAreDescribed};
ghost use Rattle.frame_facts.specs.Laws.{KeepVagueness, MeetingsAreLeast, HeightsFall, FactsFit};

/// If an instruction or a site is accepted with a vague fact, it is accepted with every fact at most as vague; and the fact after it is
/// at most as vague too.
pub fn effects_keep_vagueness()
    ensures { KeepVagueness }
{}

/// The meeting of two facts is the least vague fact that both are at most as vague as.
pub fn meetings_are_least()
    ensures { MeetingsAreLeast }
{}

/// The meeting of two facts is the first fact, or has a smaller height; heights are below 32.
pub fn heights_fall()
    ensures { HeightsFall }
{}

/// The depth is at most 65,536, and no more saves are kept than there are.
pub fn facts_fit()
    ensures { FactsFit }
{}

/// The standard frame is accepted. Suppose a function begins with a PUSH of lr and some of r4 to r7. Then all its words are saves that
/// are kept. Unwind instructions that pop the same registers agree there, at a call and at a gate. A POP of them gives the entry's fact
/// again, and its return is accepted.
pub fn standard_frames_agree()
    ensures { StandardFrames }
{}

/// Facts are true of the machine's registers. Suppose a fact describes the registers before a register instruction, or before a MOV to
/// a low register. Then the fact after it describes the registers that the core leaves. A fact without some registers describes all
/// registers that differ in these only.
pub fn registers_are_described()
    ensures { RegistersAreDescribed }
{}
