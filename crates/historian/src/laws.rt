//! What holds of every answer.

ghost use Rattle.std.specs.Prelude.{◌≡◌, List};
ghost use Rattle.ua_binary.specs.declared.values.NodeId.{NodeId};
ghost use Rattle.ua_binary.specs.declared.values.Ticks.{Ticks};
ghost use Rattle.ua_session.specs.Sessions.{SessionsState};
ghost use Rattle.records.specs.Contents.{Content};
ghost use Rattle.archive.specs.Store.{StepResult};
ghost use Rattle.historian.specs.Requests.{Call};
ghost use Rattle.historian.specs.Services.{ServerConfig, served, OnlyReads};

/// Behind a call in the session of a user who may only read, the archive holds what it held, whatever is asked and whatever
/// comes in the way of its steps.
pub fn readers_change_nothing()
    ensures { (config : ServerConfig) (now : Ticks) (token : NodeId) (call : Call)
        (sessions : SessionsState) (held : Content) (marks : List StepResult)
        → OnlyReads config.settings sessions token
        → (served config now token call sessions held marks).0.1 ≡ held }
{}
