//! Whom a client logs in as, and what it speaks of.

ghost use Rattle.std.specs.Prelude.{◌≡◌, ◌≤◌, string_bytes, length};

use std::marker::Model;

/// A user and its password, each of at most 255 bytes.
#[derive(Drop)]
pub struct Login {
    pub user: String,
    pub password: String,
}

/// Whom a client logs in as, and the partition that it speaks of.
#[derive(Drop)]
pub struct Target {
    login: Login,
    topic: String,
    partition: i32,
}

impl Model for Target {
    ghost use Rattle.std.specs.Prelude.{string_bytes};
    ghost use Rattle.kb_client.specs.Sent.{Target, HasShortTexts};

    ghost Value = { Target };

    ghost view = { λ t. record {
      user = string_bytes t.login.user;
      password = string_bytes t.login.password;
      topic = string_bytes t.topic;
      partition = t.partition;
    } };

    ghost invariant = { λ t. HasShortTexts (record {
      user = string_bytes t.login.user;
      password = string_bytes t.login.password;
      topic = string_bytes t.topic;
      partition = t.partition;
    }) };
}

impl Target {
    ghost use Rattle.kb_client.specs.Sent.{HasShortTexts};

    /// A login and a partition. The texts have at most 255 bytes.
    pub fn new(login: Login, topic: String, partition: i32) -> Target
        requires user { length (string_bytes login.user) ≤ 255 }
        requires password { length (string_bytes login.password) ≤ 255 }
        requires topic { length (string_bytes topic) ≤ 255 }
        ensures { result ≡ record {
          user = string_bytes login.user;
          password = string_bytes login.password;
          topic = string_bytes topic;
          partition = partition;
        } }
    {
        Target {
            login,
            topic,
            partition,
        }
    }

    /// The user.
    pub fn user(&self) -> &str
        ensures value { result.now ≡ self.now.user }
        ensures short { length result.now ≤ 255 }
    {
        &self.login.user
    }

    /// The password.
    pub fn password(&self) -> &str
        ensures value { result.now ≡ self.now.password }
        ensures short { length result.now ≤ 255 }
    {
        &self.login.password
    }

    /// The topic's name.
    pub fn topic(&self) -> &str
        ensures value { result.now ≡ self.now.topic }
        ensures short { length result.now ≤ 255 }
    {
        &self.topic
    }

    /// The partition's index.
    pub fn partition(&self) -> i32
        ensures { result ≡ self.now.partition }
    {
        self.partition
    }
}
