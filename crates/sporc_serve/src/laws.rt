//! What holds of a server's answers.

ghost use Rattle.std.specs.Prelude.{Bool, ◌<◌, ◌^◌, length};
ghost use Rattle.sporc_wire.specs.declared.to_server.ToServer.{ToServer};
ghost use Rattle.sporc_order.specs.OrderModel.{OrderModel};
ghost use Rattle.sporc_order.specs.Sessions.{step_of, IsSendable, IsFramed};

/// What an order answers to a message that fits a frame is a message in range, which fits a frame
/// itself.
pub fn answers_can_be_sent()
    ensures { (o : OrderModel) (greeted : Bool) (m : ToServer)
        → length (step_of o greeted m).order.entries < 2 ^ 32 → IsFramed m
        → IsSendable (step_of o greeted m).answer }
{}
