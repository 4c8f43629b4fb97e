//! Single unwinding instructions, as bytes and numbers (IHI 0038, "Frame unwinding instructions"; docs/rules/unwind-tables.md).
ghost use Rattle.eh_table_laws.specs.CodeBytes.{Raises, Lowers, LeastLongRaise, LongRaises, Takes, KeptTakes, Finishes, SinglePops, PopsWithLink};

/// Instructions that move the virtual stack pointer. 00 to 3F raise it and 40 to 7F lower it, by 4 to 256 bytes. B2 00 raises it by
/// 516, and B2 with a number by four times the number more. 90 to 9F set it to a register's value, except for 9D and 9F.
pub fn stack_pointers_move()
    ensures raise { Raises }
    ensures lower { Lowers }
    ensures least { LeastLongRaise }
    ensures long { LongRaises }
    ensures take { Takes }
    ensures kept { KeptTakes }
{}

/// B0 and the end of the bytes finish: pc becomes the link register. 80 00 refuses to unwind.
pub fn codes_finish()
    ensures { Finishes }
{}

/// Instructions that pop. A0 pops r4, and A8 pops r4 and lr. The masks of 80 and B1 count from r4 and r0. The lower register is loaded
/// from the lower address.
pub fn registers_are_popped()
    ensures single { SinglePops }
    ensures link { PopsWithLink }
{}
