//! Sources that come with the program: the stubs that each program is linked with (docs/rules/linking.md), and generated
//! programs of any size (docs/guide/command-line.md).
#![tactic(auto)]

ghost use Rattle.std.specs.Prelude.{◌≡◌};
ghost use Rattle.eh_kit.specs.Stubs.{stubs_text};

pub mod laws;
mod program;
mod program_text;

pub use program_text::{KitMemory, MAX_FUNCTIONS, generate};

/// The source of the stubs. The functions perform the gates (SVC), and `_start` is the entry of a program. The
/// read-only data has the vtables by whose addresses the kind of a type is told, and the types `int` and `void`
/// (Itanium C++ ABI, "Run-Time Type Information").
const STUBS: &str = "\
.text
.global _start
.type _start, %function
_start: .fnstart
.save {r4, lr}
push {r4, lr}
bl main
pop {r4, pc}
.fnend
.global __cxa_allocate_exception
.type __cxa_allocate_exception, %function
__cxa_allocate_exception: .fnstart
svc #16
bx lr
.fnend
.global __cxa_free_exception
.type __cxa_free_exception, %function
__cxa_free_exception: .fnstart
svc #17
bx lr
.fnend
.global __cxa_throw
.type __cxa_throw, %function
__cxa_throw: .fnstart
svc #18
.fnend
.global __cxa_begin_catch
.type __cxa_begin_catch, %function
__cxa_begin_catch: .fnstart
svc #19
bx lr
.fnend
.global __cxa_end_catch
.type __cxa_end_catch, %function
__cxa_end_catch: .fnstart
.save {r4, lr}
push {r4, lr}
svc #20
movs r4, r0
beq .Ld
cmp r1, #0
beq .Lf
blx r1
.Lf: movs r0, r4
svc #17
.Ld: pop {r4, pc}
.fnend
.global __cxa_rethrow
.type __cxa_rethrow, %function
__cxa_rethrow: .fnstart
svc #21
.fnend
.global __cxa_end_cleanup
.type __cxa_end_cleanup, %function
__cxa_end_cleanup: .fnstart
svc #22
.fnend
.global __cxa_call_unexpected
.type __cxa_call_unexpected, %function
__cxa_call_unexpected: .fnstart
svc #23
.fnend
.global _ZSt9terminatev
.type _ZSt9terminatev, %function
_ZSt9terminatev: .fnstart
svc #24
.fnend
.global _ZSt19uncaught_exceptionsv
.type _ZSt19uncaught_exceptionsv, %function
_ZSt19uncaught_exceptionsv: .fnstart
svc #25
bx lr
.fnend
.global putchar
.type putchar, %function
putchar: .fnstart
svc #1
bx lr
.fnend
.global getchar
.type getchar, %function
getchar: .fnstart
svc #2
bx lr
.fnend
.global exit
.type exit, %function
exit: .fnstart
svc #0
.fnend
.section .rodata
.global _ZTVN10__cxxabiv123__fundamental_type_infoE
_ZTVN10__cxxabiv123__fundamental_type_infoE: .zero 16
.global _ZTVN10__cxxabiv117__class_type_infoE
_ZTVN10__cxxabiv117__class_type_infoE: .zero 16
.global _ZTVN10__cxxabiv120__si_class_type_infoE
_ZTVN10__cxxabiv120__si_class_type_infoE: .zero 16
.global _ZTVN10__cxxabiv121__vmi_class_type_infoE
_ZTVN10__cxxabiv121__vmi_class_type_infoE: .zero 16
.global _ZTVN10__cxxabiv119__pointer_type_infoE
_ZTVN10__cxxabiv119__pointer_type_infoE: .zero 16
.global _ZTIi
_ZTIi: .word _ZTVN10__cxxabiv123__fundamental_type_infoE+8, .Lni
.global _ZTIv
_ZTIv: .word _ZTVN10__cxxabiv123__fundamental_type_infoE+8, .Lnv
.Lni: .asciz \"i\"
.Lnv: .asciz \"v\"
";

/// The source text of the stubs. It is linked last.
#[tactic(auto, unfolding(crate::specs::Stubs::stubs_text))]
pub fn stubs() -> &'static [u8]
    ensures { result.now ≡ stubs_text }
{
    STUBS.as_bytes()
}
