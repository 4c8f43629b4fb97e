//! The code of an accepted image: memory has at each place the instruction that the checker saw. Also where a run goes on, and what the
//! unwinding recipe of a site gives (docs/inside/simulation.md).
#![tactic(auto)]

ghost use Rattle.sim_code.specs.RecipeLaws.{RecipesSay, RecipesFinish, BytesAreRecipes, RegistersStay};
ghost use Rattle.sim_code.specs.CodeLaws.{FieldsAreInRange, CodeIsFetched, SitesShareAnEntry};

/// If unwinding codes have a recipe, unwinding by them gives each register what the recipe says. sp is the sum from the recipe's base, and
/// pc is what its source gives.
pub fn recipes_say()
    ensures { RecipesSay }
{}

/// Such an unwinding succeeds if every word that the recipe names can be read and the codes pop no register twice.
pub fn recipes_finish()
    ensures { RecipesFinish }
{}

/// Codes that are bytes never pop sp, and their recipe's words lie at multiples of 4.
pub fn bytes_are_recipes()
    ensures { BytesAreRecipes }
{}

/// Unwinding from sixteen 32-bit words gives sixteen 32-bit words.
pub fn registers_stay()
    ensures { RegistersStay }
{}

/// Every instruction that the checker decoded has its operands in range.
pub fn fields_are_in_range()
    ensures { FieldsAreInRange }
{}

/// If no read-only byte was changed, the machine does at each place what the checker saw there.
pub fn code_is_fetched()
    ensures { CodeIsFetched }
{}

/// One entry of the index covers all reached sites of a function.
pub fn sites_share_an_entry()
    ensures { SitesShareAnEntry }
{}
