//! The laws, each as the contract of a function that does nothing.
ghost use Rattle.cpc_convert_image_laws.specs.Example.{ThereAreFrames, NotOfImages};
ghost use Rattle.cpc_convert_image_laws.specs.StackLaws.{NativeStacksStep, NativeStacksAreAnswered};
ghost use Rattle.cpc_convert_image_laws.specs.Laws.{ImagesArePlaces, NamesGrow, SectionsCopyAlike, ScalarsAreWritten, ImagesTakeNoAddress, ArgumentsOneByOne, ReturnsAndArrivals, NativeSpawnsAreCalls, ScopesAreRead, VariablesStand, ValuesFit, StoresAreBeside, ImagesHaveTypes, ImagesHaveValues, ImagesAreArguments, ImagesAreWritten, StatementsDoSame, TestsDoSame, ArrivalsDoSame, ArrivalsAreAssigned, ResultsAreStored, SpawnsAreCalls, WaitsAreCalls, SectionsAreCalls, VariablesStay, NativeStepsDoSame, CallsAreEntered};

/// An image is used at the type of its expression, and is a place of that type where the expression is one that may be written.
pub fn images_have_types()
    ensures law { ImagesHaveTypes }
{}

/// An image has the value of its expression, faults alike, and the value leads into blocks that were made.
pub fn images_have_values()
    ensures law { ImagesHaveValues }
{}

/// A row of images has the values of its expressions, as arguments too and as primitives take them.
pub fn images_are_arguments()
    ensures law { ImagesAreArguments }
{}

/// What is written at a place is written at its image: in the same cell, or in the variable and the local in which it stands.
pub fn images_are_written()
    ensures law { ImagesAreWritten }
{}

/// A statement in place does what its image does.
pub fn statements_do_same()
    ensures law { StatementsDoSame }
{}

/// A test has the same outcome as its image.
pub fn tests_do_same()
    ensures law { TestsDoSame }
{}

/// A value that arrives at a statement arrives at its image.
pub fn arrivals_do_same()
    ensures law { ArrivalsDoSame }
{}

/// A value that arrives is assigned from the local in which it stands.
pub fn arrivals_are_assigned()
    ensures law { ArrivalsAreAssigned }
{}

/// The value of a result is left in a local of its type.
pub fn results_are_stored()
    ensures law { ResultsAreStored }
{}

/// A spawn hands over what a call of its spawner hands over.
pub fn spawns_are_calls()
    ensures law { SpawnsAreCalls }
{}

/// A wait asks for what the wait for a callback asks, with the callback and its pointer.
pub fn waits_are_calls()
    ensures law { WaitsAreCalls }
{}

/// A section asks for what `rt_detach` of its function asks, with the callback and its pointer.
pub fn sections_are_calls()
    ensures law { SectionsAreCalls }
{}

/// After an act each name means what it meant.
pub fn variables_stay()
    ensures law { VariablesStay }
{}

/// A step of native code, but for sections and spawns, is the same step where the store has frames.
pub fn native_steps_do_same()
    ensures law { NativeStepsDoSame }
{}

/// The variables of a call are the same where the store has frames.
pub fn calls_are_entered()
    ensures law { CallsAreEntered }
{}

/// Where the variables of a scope stand in locals of the target, each name means what it should by the readings of the scope.
pub fn scopes_are_read()
    ensures law { ScopesAreRead }
{}

/// A variable that stands in a local stands there after an act, and after another local was written.
pub fn variables_stand()
    ensures law { VariablesStand }
{}

/// A register holds a value of its type after an act, and arguments are values of their types.
pub fn values_fit()
    ensures law { ValuesFit }
{}

/// What is written, made and freed where a store has frames is so in the store without them.
pub fn stores_are_beside()
    ensures law { StoresAreBeside }
{}

/// Arguments come to the same where each is converted before the next is evaluated, if all can be converted.
pub fn arguments_one_by_one()
    ensures law { ArgumentsOneByOne }
{}

/// A return gives the value at the type of the result, and leaves; an arrival depends on the place for the value alone.
pub fn returns_and_arrivals()
    ensures law { ReturnsAndArrivals }
{}

/// A spawn of native code hands over what a call of its spawner hands over.
pub fn native_spawns_are_calls()
    ensures law { NativeSpawnsAreCalls }
{}

/// The image of an expression takes the address of no local: so the locals of a generated function are registers.
pub fn images_take_no_address()
    ensures law { ImagesTakeNoAddress }
{}

/// There are two frames in which all holds that the laws ask.
pub fn there_are_frames()
    ensures law { ThereAreFrames }
{}

/// What does not hold of images: the target may have an answer where the source has none, and the field of a box that is not live is not found.
pub fn not_of_images()
    ensures law { NotOfImages }
{}

/// What a section takes from the store, and brings back, is so where the store has frames.
pub fn sections_copy_alike()
    ensures law { SectionsCopyAlike }
{}

/// A place of a scalar type may be written.
pub fn scalars_are_written()
    ensures law { ScalarsAreWritten }
{}

/// The names of a statement that are of one family are of a larger one.
pub fn names_grow()
    ensures law { NamesGrow }
{}

/// An image is where its expression is, if that is a place: in the same cell, or in the local in which the variable stands.
pub fn images_are_places()
    ensures law { ImagesArePlaces }
{}

/// A step of native code over stacks of native frames that stand for each other, at positions of any types, comes to the same where
/// the store has frames.
pub fn native_stacks_step<P, Q>()
    ensures law { NativeStacksStep P Q }
{}

/// And so does the answer to what native code asks.
pub fn native_stacks_are_answered<P, Q>()
    ensures law { NativeStacksAreAnswered P Q }
{}
