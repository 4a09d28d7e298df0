//! Laws: frames one above the other are what is left of a process.

ghost use Rattle.frame_stack.specs.Laws.{ScriptsBegin, EventsShow, AnswersGo, MethodsBegin, NoneBegins, ValuesGo, ProcessesEnd};

/// What is left of the frame of a script alone is the process of this script, from its beginning.
pub fn scripts_begin_alone<M>(_memory: &M)
    ensures { ScriptsBegin M }
{}

/// What the frame on top shows is what the process does next, and behind it is what is left then.
pub fn events_are_those_of_the_process<M>(_memory: &M)
    ensures { EventsShow M }
{}

/// Where the frame on top is given an answer, what is left is what the process does behind this answer.
pub fn answers_go_to_the_top<M>(_memory: &M)
    ensures { AnswersGo M }
{}

/// Where a method is put on top of the frame that called it, what is left is what the call means; the 65th frame doesn't begin, and the
/// call is answered with an error.
pub fn methods_begin_on_top<M>(_memory: &M)
    ensures begin { MethodsBegin M }
    ensures full { NoneBegins M }
{}

/// The value with which a method ends is the answer to the frame below it; any other end, and each end of the frame at the bottom,
/// is that of the process.
pub fn ends_go_to_the_frame_below<M>(_memory: &M)
    ensures value { ValuesGo M }
    ensures process { ProcessesEnd M }
{}
