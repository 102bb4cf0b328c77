ghost use Rattle.explain.specs.Boards.{Boards};
ghost use Rattle.explain.specs.Explaining.{AnswersExplain};

/// What explaining answers are exactly the minimal explanations of the goal and of its negation.
pub fn answers_are_minimal_explanations()
    ensures { AnswersExplain }
{}

/// Small boards, worked out by the definitions.
pub fn boards_come_out()
    ensures { Boards }
{}
